// One call of the listing, and what it gave.
use digits::unhex::unhex;
use listing::listing::{ListRefusal, list};
use program::print::text;
use std::fmt;
use std::rt::Stdout;

// What the buffer holds before: no byte of a text.
pub const BEFORE: u8 = 0xA5;

// The answer's number and values.
#[derive(Drop)]
struct Told(Result<usize, ListRefusal>);

impl fmt::Display for Told {
    fn fmt<W: fmt::Write>(&self, f: &mut fmt::Formatter<W>) -> fmt::Result {
        match self.0 {
            Ok(length) => write!(f, "0 {length}"),
            Err(ListRefusal::TooLong { length, start }) => write!(f, "11 {length} {start}"),
            Err(ListRefusal::NoRoom(needed)) => write!(f, "14 {needed}"),
        }
    }
}

// A case as it is written.
pub fn read(out: Stdout, written: &[u8]) {
    let mut bytes = [0u8; 4096];
    match unhex(written, &mut bytes) {
        Ok(count) => take(out, &bytes[..count]),
        Err(_) => {
            let _ = println!(out; "no bytes");
        }
    }
}

// The start, the room in two bytes, the higher first, and the program.
fn take(out: Stdout, case: &[u8]) {
    let [start, high, low, program @ ..] = case else {
        let _ = println!(out; "no case");
        return;
    };
    run(out, program, *start, u16::from_be_bytes([*high, *low]));
}

// What is answered, the text, and whether the bytes behind it are as before. So much of the space is lent as there is.
fn run(out: Stdout, program: &[u8], start: u8, room: u16) {
    let mut space = [BEFORE; 4096];
    let room = usize::from(room).min(space.len());
    let answer = list(program, start, &mut space[..room]);
    let _ = println!(out; "answer {}", Told(answer));
    let (listed, rest) = space.split_at(answer.unwrap_or(0));
    text(out, listed);
    let touched = if rest.iter().all(|byte| *byte == BEFORE) {
        "untouched"
    } else {
        "touched"
    };
    let _ = println!(out; "rest {touched}");
}
