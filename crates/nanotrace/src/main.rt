// nanotrace RULE [LIMIT]: takes the rule that the file RULE holds step by step, as the host's console does, with the station's bytes from standard input.
// Standard output gets a line after each completed step, and then the verdict. What the rule prints is not shown.
#![tactic(auto)]

use job::read::{NoJob, read_input, read_rule};
use nanocore::answer::{Outcome, TooLong};
use nanocore::machine::Machine;
use program::say::Streams;
use rule::rule::load_rule;
use rule::verdict::{too_long, verdict};
use std::rt::Stdin;
use text::line::Line;
use trace::line::line;
use trace::look::look;

fn main(rt: HostRuntime) {
    let to = Streams::new(&rt, b"nanotrace");
    let mut rule = [0u8; 65536];
    match read_rule(&rt, to.voice, &mut rule) {
        Ok(job) => trace(rt.stdin(), to, &rule[..job.length], job.limit),
        Err(NoJob::TooLong(length)) => {
            say(to, too_long(length, 0));
        }
        Err(NoJob::Said) => {}
    }
}

fn trace(from: Stdin, to: Streams, rule: &[u8], limit: u16) {
    let mut input = [0u8; 65536];
    let Ok(count) = read_input(from, to.voice, &mut input, limit) else {
        return;
    };
    let loaded = load_rule(rule, limit);
    match loaded.answer {
        Ok(()) => follow(to, loaded.machine, &input[..count]),
        Err(TooLong { length, start }) => {
            say(to, too_long(length, start));
        }
    }
}

// It stops where a line could not be written, which is said once. There is room for all that a limit can print.
fn follow(to: Streams, machine: Machine, input: &[u8]) {
    let mut output = [0u8; 65536];
    let mut at = Outcome {
        answer: None,
        machine,
        place: 0,
        written: 0,
    };
    loop {
        at = look(at.machine, input, at.place, &mut output, at.written);
        let after = at.machine;
        match at.answer {
            Some(answer) => {
                say(to, verdict(answer, after.count, after.pc));
                return;
            }
            None => {
                if !say(to, line(after)) {
                    return;
                }
            }
        }
    }
}

// Whether the line was written; where it was not, it was said why.
fn say(to: Streams, line: Line) -> bool {
    to.print(line.as_bytes())
}
