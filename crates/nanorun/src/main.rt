// nanorun RULE [LIMIT]: runs the rule that the file RULE holds, with the station's bytes from standard input. Standard output gets exactly the bytes
// that the rule printed, standard error one line: the verdict, or why there is none.
#![tactic(auto)]

use job::read::{NoJob, read_input, read_rule};
use program::say::Streams;
use rule::rule::run_rule;
use rule::verdict::too_long;
use std::rt::Stdin;

fn main(rt: HostRuntime) {
    let to = Streams::new(&rt, b"nanorun");
    let mut rule = [0u8; 65536];
    match read_rule(&rt, to.voice, &mut rule) {
        Ok(job) => run(rt.stdin(), to, &rule[..job.length], job.limit),
        Err(NoJob::TooLong(length)) => to.voice.tell(too_long(length, 0).as_bytes()),
        Err(NoJob::Said) => {}
    }
}

// A limit can print no more bytes than its own number, for which there is room.
fn run(from: Stdin, to: Streams, rule: &[u8], limit: u16) {
    let mut input = [0u8; 65536];
    let Ok(count) = read_input(from, to.voice, &mut input, limit) else {
        return;
    };
    let mut output = [0u8; 65536];
    let ending = run_rule(rule, limit, &input[..count], &mut output);
    if to.print(&output[..ending.written]) {
        to.voice.tell(ending.verdict.as_bytes());
    }
}
