// nanolist: lists the program that standard input holds, from address 0 on. Standard output gets its lines, or one line with the refusal's number, and then
// standard error says why.
#![tactic(auto)]

use listing::listing::{ListRefusal, list};
use program::input::standard_input;
use program::say::Streams;

// The buffer holds far more than a program may have, so what does not fit is too long, whatever follows.
fn main(rt: HostRuntime) {
    let to = Streams::new(&rt, b"nanolist");
    let mut program = [0u8; 65536];
    if let Ok(count) = standard_input(rt.stdin(), to.voice, &mut program) {
        print(to, &program[..count]);
    }
}

// There is room for the lines of 256 bytes, so 14 does not occur.
fn print(to: Streams, program: &[u8]) {
    let mut text = [0u8; 65536];
    match list(program, 0, &mut text) {
        Ok(length) => {
            to.print(&text[..length]);
        }
        Err(ListRefusal::TooLong { .. }) => to.refused_why(11, b"a program has at most 256 bytes"),
        Err(ListRefusal::NoRoom(_)) => to.refused_why(14, b"no room for the lines"),
    }
}
