// The lines of a listing, one after the other.
ghost use Rattle.std.specs.Prelude.{◌+◌, ◌≤◌, ◌≡◌, length};

use crate::row::Row;
use text::line::Line;

// A program that is listed from a start address on, and the place that the next line stands for.
#[derive(Clone, Copy)]
pub struct Rows<'a> {
    program: &'a [u8],
    start: u8,
    at: usize,
    ghost program_bound: { start + length program.now ≤ 256 },
}

impl<'a> Rows<'a> {
    ghost use Rattle.front.specs.Listed.{lines_of};
    ghost use Rattle.row.specs.Left.{lines_left};

    pub fn of(program: &'a [u8], start: u8) -> Rows<'a>
        requires { start + length program.now ≤ 256 }
        ensures { lines_left result ≡ lines_of program.now start }
    {
        Rows {
            program,
            start,
            at: 0,
        }
    }
}

impl<'a> Iterator for Rows<'a> {
    ghost use Rattle.std.specs.Iterator.{YieldsFirstBy, item_count};
    ghost use Rattle.row.specs.Left.{lines_left, text_of};

    type Item = Line;

    ghost next_gives = { YieldsFirstBy text_of lines_left };

    ghost remaining = { item_count lines_left };

    fn next(&mut self) -> Option<Line> {
        if self.at >= self.program.len() {
            return None;
        }
        let row = Row::of(self.program, self.start, self.at);
        self.at = row.next;
        Some(row.line)
    }
}
