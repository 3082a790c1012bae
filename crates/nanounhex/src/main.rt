// nanounhex: reads the rule that standard input holds as Intel HEX. Standard output gets its bytes, from address 0 to the last one that is set, and
// standard error the verdict, and behind a refusal why.
#![tactic(auto)]

mod say;

use files::Cut;
use hexread::read::read;
use hexverdict::marks::set_bytes;
use program::input::standard_input;
use program::say::Streams;
use scan::class::Class;
use scan::scan::last;
use std::rt::Stdin;

fn main(rt: HostRuntime) {
    let to = Streams::new(&rt, b"nanounhex");
    let mut text = [0u8; 65536];
    let Ok(count) = standard_input(rt.stdin(), to.voice, &mut text) else {
        return;
    };
    if count < text.len() || is_whole(rt.stdin(), to, count) {
        unhex(to, &text[..count]);
    }
}

// Whether a text that fills the buffer ends there: it is not read as if it did. Where there is more, or a read failed, that was said.
fn is_whole(from: Stdin, to: Streams, length: usize) -> bool {
    let mut next = [0u8; 1];
    match standard_input(from, to.voice, &mut next) {
        Ok(0) => true,
        Err(Cut { count: 0, .. }) => false,
        _ => {
            say::too_long(to, length);
            false
        },
    }
}

// A refused text leaves image and marks clear, so none of its bytes are written.
fn unhex(to: Streams, text: &[u8]) {
    let mut image = [0u8; 256];
    let mut marks = [0u8; 256];
    let answer = read(text, &mut image, &mut marks);
    let count = last(Class::IsNot(0), &marks);
    if to.print(&image[..count]) {
        say::verdict(to, answer, set_bytes(&marks));
    }
}
