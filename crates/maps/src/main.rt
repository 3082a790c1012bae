// maps FILE..: maps the labels of each source in each FILE and prints a line for it: `mapped` with place, length and address of every label, or the refusal.
// The sources stand one after the other, each ended by the byte 0xFF, which no source has. The gate runs it on recorded ones.
#![tactic(auto)]

mod say;

use labels::pass::map_labels;
use program::input::{has_argument, whole_argument};
use std::rt::{Env, Files, Stdout};

fn main(rt: HostRuntime) {
    for i in 1..usize::MAX {
        if !has_argument(&rt, i) {
            return;
        }
        map_file(&rt, rt.stdout(), i);
    }
}

// The file that the i-th argument names. One that does not fit is not answered at all, so that no source of it is taken for a shorter one.
fn map_file<R: Env + Files>(rt: &R, out: Stdout, i: usize) {
    let mut sources = [0u8; 65536];
    match whole_argument(rt, i, &mut sources) {
        Ok(count) => map_sources(out, &sources[..count]),
        Err(_) => say::unread(out, i),
    }
}

fn map_sources(out: Stdout, sources: &[u8]) {
    for ended in sources.split_inclusive(|byte| *byte == 0xFF) {
        let source = ended.strip_suffix(&[0xFF]).unwrap_or(ended);
        say::mapped(out, map_labels(source));
    }
}
