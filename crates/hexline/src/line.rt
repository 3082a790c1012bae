// The line of a record.
ghost use Rattle.std.specs.Prelude.{◌≡◌, ◌≤◌, [], length};
ghost use Rattle.text.specs.Lines.{appended, lined};
ghost use Rattle.hexline.specs.Line.{line_of};
ghost use Rattle.hexline.specs.Spelling.{digits_of};

use crate::sum::sum;
use digits::digit::pair;
use text::line::Line;

// Data from an address on: at most sixteen bytes, with which the line is 44 bytes long and has room.
pub fn data_line(address: u8, held: &[u8]) -> Line
    requires { length held.now ≤ 16 }
    ensures { result ≡ lined (line_of 0 address held.now) }
{
    let front = [held.len() as u8, 0, address, 0];
    let last = [sum(&front).wrapping_add(sum(held)).wrapping_neg()];
    let begun = digits(Line::empty().text(b":"), &front);
    digits(digits(begun, held), &last).text(b"\n")
}

pub fn end_line() -> Line
    ensures { result ≡ lined (line_of 1 0 []) }
{
    Line::empty().text(b":00000001FF\n")
}

// The digits of bytes, behind what the line has already.
fn digits(mut line: Line, bytes: &[u8]) -> Line
    ensures { result ≡ appended line (digits_of bytes.now) }
{
    for byte in bytes {
        line = line.text(&pair(*byte));
    }
    line
}
