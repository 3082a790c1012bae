// listings FILE: lists the program of each case in FILE and prints what it gave, and then what every first byte gives before every second. The gate runs it.
// A line of FILE with a colon is a case, its headline before the colon. Other lines are remarks.
#![tactic(auto)]

mod case;
mod tails;

use program::input::whole_argument;
use program::print::text;
use std::rt::Stdout;

fn main(rt: HostRuntime) {
    let out = rt.stdout();
    let mut cases = [0u8; 65536];
    let Ok(count) = whole_argument(&rt, 1, &mut cases) else {
        let _ = println!(out; "not read");
        return;
    };
    for line in cases[..count].split(|byte| *byte == b'\n') {
        run_line(out, line);
    }
    tails::all(out);
}

fn run_line(out: Stdout, line: &[u8]) {
    if let Some(end) = line.iter().position(|byte| *byte == b':') {
        text(out, &line[..end]);
        let _ = println!(out);
        case::read(out, &line[end + 1..]);
    }
}
