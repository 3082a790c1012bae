// nanohex: writes the rule that standard input holds as Intel HEX, its bytes from address 0 on. Standard output gets its records, or one line with the
// refusal's number, and then standard error says why.
#![tactic(auto)]

use hexwrite::write::{WriteRefusal, write};
use program::input::standard_input;
use program::say::Streams;

// The buffer holds far more than a rule may have, so what does not fit is too long, whatever follows.
fn main(rt: HostRuntime) {
    let to = Streams::new(&rt, b"nanohex");
    let mut rule = [0u8; 65536];
    if let Ok(count) = standard_input(rt.stdin(), to.voice, &mut rule) {
        print(to, &rule[..count]);
    }
}

// The rule's bytes are set, and no others.
fn print(to: Streams, rule: &[u8]) {
    let count = rule.len();
    if count > 256 {
        to.refused_why(11, b"a rule has at most 256 bytes");
        return;
    }
    let mut image = [0u8; 256];
    image[..count].copy_from_slice(rule);
    let mut marks = [0u8; 256];
    marks[..count].fill(1);
    print_records(to, &image, &marks);
}

// There is room for the records of 256 bytes, and image and marks have as many, so 14 and 19 do not occur.
fn print_records(to: Streams, image: &[u8], marks: &[u8]) {
    let mut text = [0u8; 4096];
    match write(image, marks, &mut text) {
        Ok(length) => {
            to.print(&text[..length]);
        },
        Err(WriteRefusal::NoRoom(_)) => to.refused_why(14, b"no room for the records"),
        Err(WriteRefusal::NoImage) => to.refused_why(19, b"an image has 256 bytes"),
    }
}
