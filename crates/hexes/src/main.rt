// hexes FILE..: reads every text of Intel HEX in each FILE and prints what came of it. The gate runs it on many.
// In a FILE a `#` and a headline begin a case, and its text stands below.
#![tactic(auto)]

mod case;
mod escape;
mod say;

use escape::plain;
use program::input::{has_argument, whole_argument};
use scan::scan::line_end;
use std::rt::{Env, Files, Stdout};

fn main(rt: HostRuntime) {
    for i in 1..usize::MAX {
        if !has_argument(&rt, i) {
            return;
        }
        run_file(&rt, rt.stdout(), i);
    }
}

// The file that the i-th argument names. One that does not fit is not answered at all, so that no text of it is taken for a shorter one.
fn run_file<R: Env + Files>(rt: &R, out: Stdout, i: usize) {
    let mut cases = [0u8; 65536];
    match whole_argument(rt, i, &mut cases) {
        Ok(count) => run_cases(out, &cases[..count]),
        Err(_) => say::unread(rt, out, i),
    }
}

// The first case stands behind the first `#`, and each goes on to the next.
fn run_cases(out: Stdout, cases: &[u8]) {
    if let [_, cases @ ..] = cases {
        for ended in cases.split_inclusive(|byte| *byte == b'#') {
            run_case(out, ended.strip_suffix(b"#").unwrap_or(ended));
        }
    }
}

// The text is never longer than it is written, so it has room.
fn run_case(out: Stdout, case: &[u8]) {
    let end = line_end(case, 0);
    say::headline(out, &case[..end]);
    if end < case.len() {
        let mut text = [0u8; 65536];
        let length = plain(&case[end + 1..], &mut text);
        case::run(out, &text[..length]);
    }
}
