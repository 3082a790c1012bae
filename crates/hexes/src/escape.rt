// The text of a case, which may have bytes that do not show.
ghost use Rattle.std.specs.Prelude.{◌≤◌, length};
ghost use Rattle.files.specs.Counts.{IsPrefixLen};

use digits::digit::digit;
use fields::read::byte_at;

// A `\` and two digits stand for a byte, and a `\` that ends a line keeps its LF out. How many bytes there are, as far as there is room.
pub fn plain(written: &[u8], text: &mut [u8]) -> usize
    ensures { IsPrefixLen result text.new }
{
    let mut count = 0;
    let mut rest = written;
    while count < text.len() {
        match rest {
            [] => break,
            [b'\\', b'\n', behind @ ..] => rest = behind,
            [b'\\', behind @ ..] => {
                text[count] = byte(byte_at(behind, 0), byte_at(behind, 1));
                count += 1;
                rest = behind.get(2..).unwrap_or(&[]);
            },
            [shown, behind @ ..] => {
                text[count] = *shown;
                count += 1;
                rest = behind;
            },
        }
    }
    count
}

// What is no digit counts as 0.
fn byte(high: u8, low: u8) -> u8 {
    digit(high).unwrap_or(0) * 16 + digit(low).unwrap_or(0)
}
