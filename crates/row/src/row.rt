// One line of the listing, at its place in the program. The walk that measures and the walk that writes both go from row to row.
ghost use Rattle.std.specs.Prelude.{◌+◌, ◌≤◌, ◌<◌, ◌≡◌, length, drop};
ghost use Rattle.text.specs.Lines.{lined};
ghost use Rattle.front.specs.Front.{front_of, size_of};
ghost use Rattle.front.specs.Line.{line_at};

use crate::line::line;
use front::front::Front;
use text::line::Line;

// The line, and the place of the byte that the next one begins with.
#[derive(Clone, Copy)]
pub struct Row {
    pub line: Line,
    pub next: usize,
}

impl Row {
    pub fn of(program: &[u8], start: u8, at: usize) -> Row
        requires program_bound { start + length program.now ≤ 256 }
        requires at_in_bounds { at < length program.now }
        ensures line_value { result.line ≡ lined (line_at (start + at) (drop at program.now)) }
        ensures next_value { result.next ≡ at + size_of (front_of (drop at program.now)) }
        ensures length_bound { result.line.length ≤ 64 }
        ensures at_lt_next { at < result.next }
        ensures next_in_bounds { result.next ≤ length program.now }
    {
        let bytes = &program[at..];
        let front = Front::of(bytes);
        Row {
            line: line(start + at as u8, front, bytes),
            next: at + front.size(),
        }
    }
}
