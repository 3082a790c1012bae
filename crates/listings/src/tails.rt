// Every first byte before every second one: 65,536 programs of two bytes, and as many of three. So many texts could not be read one by one: a line
// for each first byte says what its 512 come to.
use crate::case::BEFORE;
use listing::listing::list;
use std::rt::Stdout;

// What stands third: a value or an address, a byte that begins nothing, or, where the first byte stands alone, the second's register, not plain.
const THIRD: u8 = 0xA7;

// The largest prime below 2^32.
const PRIME: usize = 4294967291;

// The length of some texts, and a value that comes of all their bytes in order.
#[derive(Clone, Copy, Default)]
struct Sum {
    length: usize,
    check: usize,
}

impl Sum {
    // With one text more, of no length where there is none. The check goes over the whole space: so a byte touched behind the text shows, and where a
    // text ends.
    fn and(self, program: &[u8]) -> Sum {
        let mut space = [BEFORE; 64];
        let length = list(program, 0, &mut space).unwrap_or(0);
        Sum {
            length: self.length.wrapping_add(length),
            check: checked(self.check, &space),
        }
    }
}

pub fn all(out: Stdout) {
    let _ = println!(out; "every first byte before every second");
    for first in 0..=255 {
        let sum = before_every(first);
        let _ = println!(out; "{first} {} {}", sum.length, sum.check);
    }
}

fn before_every(first: u8) -> Sum {
    (0..=255).fold(
        Sum::default(),
        |sum: Sum, second| sum.and(&[first, second]).and(&[first, second, THIRD]),
    )
}

fn checked(before: usize, bytes: &[u8]) -> usize {
    bytes.iter().fold(
        before,
        |check, byte| check % PRIME * 257 + usize::from(*byte),
    )
}
