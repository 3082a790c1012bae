// nanoreplay [FILE..]: replays lists of cases (oracle/FORMAT.md) from the files, or from standard input where none is named. It prints a line for
// each of the first differences, a line for each line that is no whole case, and at the end of each list `compared N differ M`. Before the lines of
// a file it prints its name.
#![tactic(auto)]

mod list;
mod say;

use list::replay_list;
use std::env::FillError;
use std::io::Error;
use std::rt::{Env, Files, Stderr, Stdout};

// The system's number for a name that is too long.
const NAME_TOO_LONG: i32 = 36;

fn main(rt: HostRuntime) {
    let (out, err) = (rt.stdout(), rt.stderr());
    if !replay_file(&rt, out, err, 1) {
        replay_list(&mut rt.stdin(), out);
        return;
    }
    for i in 2..usize::MAX {
        if !replay_file(&rt, out, err, i) {
            return;
        }
    }
}

// The file that an argument names, and whether there is such an argument.
fn replay_file<R: Env + Files>(rt: &R, out: Stdout, err: Stderr, i: usize) -> bool {
    let mut path = [0u8; 4096];
    match rt.arg(i, &mut path) {
        Ok(length) => replay_named(rt, out, err, &path[..length]),
        Err(FillError::TooLong) => {
            say::failed(
                err,
                b"nanoreplay: an argument",
                Error::from_raw_os_error(NAME_TOO_LONG),
            );
        }
        Err(FillError::NotPresent) => return false,
    }
    true
}

fn replay_named<R: Files>(rt: &R, out: Stdout, err: Stderr, path: &[u8]) {
    match files::open(rt, path) {
        Ok(mut file) => {
            say::name(out, path);
            replay_list(&mut file, out);
        }
        Err(reason) => say::failed(err, path, reason),
    }
}
