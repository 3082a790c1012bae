// nanocheck: says which instructions of the rule that standard input holds are not in plain spelling. Standard output gets a line for each of them, and then how
// many are, or one line with the refusal's number, and then standard error says why.
#![tactic(auto)]

use program::input::standard_input;
use program::say::Streams;
use spelling::check::{CheckRefusal, check};

// The buffer holds far more than a rule may have, so what does not fit is too long, whatever follows.
fn main(rt: HostRuntime) {
    let to = Streams::new(&rt, b"nanocheck");
    let mut rule = [0u8; 65536];
    if let Ok(count) = standard_input(rt.stdin(), to.voice, &mut rule) {
        print(to, &rule[..count]);
    }
}

// There is room for what is said of 256 bytes, so 14 does not occur.
fn print(to: Streams, rule: &[u8]) {
    let mut text = [0u8; 65536];
    match check(rule, &mut text) {
        Ok(length) => {
            to.print(&text[..length]);
        }
        Err(CheckRefusal::TooLong(_)) => to.refused_why(11, b"a rule has at most 256 bytes"),
        Err(CheckRefusal::NoRoom(_)) => to.refused_why(14, b"no room for the lines"),
    }
}
