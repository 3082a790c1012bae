// What goes from line to line.
ghost use Rattle.std.specs.Prelude.{◌+◌, ◌≤◌, length};

use table::labels::Labels;

// How far the pass has come: the address, and the labels so far.
#[derive(Clone, Copy)]
pub struct Stand {
    pub address: u8,
    pub labels: Labels,
    ghost room: { labels.count ≤ 64 },
}

// One line of a source: the place where it begins there, its number, and its bytes.
#[derive(Clone, Copy)]
pub struct RawLine<'a> {
    pub source: &'a [u8],
    pub place: usize,
    pub number: usize,
    pub bytes: &'a [u8],
    ghost inside: { place + length bytes.now ≤ 16384 },
}
