// What hexes prints.
use program::print::{argument, text};
use std::rt::{Env, Stdout};

// What stands behind the `#` of a case.
pub fn headline(out: Stdout, words: &[u8]) {
    text(out, b"#");
    text(out, words);
    text(out, b"\n");
}

pub fn unread<R: Env>(rt: &R, out: Stdout, i: usize) {
    text(out, b"not read: ");
    argument(rt, out, i);
    text(out, b"\n");
}
