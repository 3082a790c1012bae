// What stands at one place of a rule.
ghost use Rattle.std.specs.Prelude.{◌+◌, ◌≤◌, ◌<◌, ◌≡◌, length, drop};
ghost use Rattle.text.specs.Lines.{lined};
ghost use Rattle.front.specs.Front.{front_of, size_of};
ghost use Rattle.finding.specs.Found.{found_at, plain_in};
ghost use Rattle.finding.specs.Line.{lines_of};
ghost use Rattle.finding.specs.Standing.{instructions_in, line_in, plain_ones_in};

use crate::line::line;
use front::front::Front;
use text::line::Line;

// A byte alone, an instruction in plain spelling, or one in another with the line that is said of it.
#[derive(Clone, Copy)]
pub enum Standing {
    Alone,
    Plain,
    Unplain(Line),
}

// And the place of the next.
#[derive(Clone, Copy)]
pub struct Finding {
    pub standing: Standing,
    pub next: usize,
}

impl Finding {
    pub fn of(rule: &[u8], at: usize) -> Finding
        requires rule_len_bound { length rule.now ≤ 256 }
        requires at_in_bounds { at < length rule.now }
        ensures line_value { line_in result.standing ≡ lined (lines_of (found_at at (drop at rule.now))) }
        ensures instructions_value { instructions_in result.standing ≡ length (found_at at (drop at rule.now)) }
        ensures plain_value { plain_ones_in result.standing ≡ plain_in (found_at at (drop at rule.now)) }
        ensures next_value { result.next ≡ at + size_of (front_of (drop at rule.now)) }
        ensures at_lt_next { at < result.next }
        ensures next_in_bounds { result.next ≤ length rule.now }
    {
        let front = Front::of(&rule[at..]);
        let next = at + front.size();
        match front {
            Front::Whole(found) => {
                if found.plain {
                    Finding {
                        standing: Standing::Plain,
                        next,
                    }
                } else {
                    let said = line(at as u8, &rule[at..next], found.op, found.operands);
                    Finding {
                        standing: Standing::Unplain(said),
                        next,
                    }
                }
            },
            Front::Alone(_) => Finding {
                standing: Standing::Alone,
                next,
            },
        }
    }
}
