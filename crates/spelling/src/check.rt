// The check of a rule: a line for each instruction that is not in plain spelling, and then how many are, into a lent buffer.
ghost use Rattle.std.specs.Prelude.{◌+◌, ◌^◌, ◌<◌, ◌≤◌, ◌++◌, ◌≡◌, IfOk, length, drop};
ghost use Rattle.fields.specs.Written.{told};
ghost use Rattle.text.specs.Lines.{lined};
ghost use Rattle.finding.specs.Found.{plain_in};
ghost use Rattle.finding.specs.Line.{lines_of};
ghost use Rattle.finding.specs.Standing.{said_by};
ghost use Rattle.spelling.specs.Check.{check_of, counts_of, found};
ghost use Rattle.spelling.specs.Numbers.{check_number};

use fields::lay::lay;
use finding::finding::Standing;
use finding::findings::Findings;
use text::line::Line;

// Why there is no text: the rule's length, or the room that the text needs.
#[derive(Clone, Copy, PartialEq, Eq, Debug)]
pub enum CheckRefusal {
    TooLong(usize),
    NoRoom(usize),
}

// The length of the text. It is measured before it is written, so that a buffer without room stays as it was.
pub fn check(rule: &[u8], buffer: &mut [u8]) -> Result<usize, CheckRefusal>
    ensures value { told (check_number result) buffer.new ≡ check_of rule.now buffer.old }
    ensures bound { IfOk result (λ n. n ≤ length buffer.new) }
{
    if rule.len() > 256 {
        return Err(CheckRefusal::TooLong(rule.len()));
    }
    let tally = Tally::of(rule);
    let last = counts(tally.plain, tally.instructions);
    let needed = tally.lines + last.length;
    if buffer.len() < needed {
        return Err(CheckRefusal::NoRoom(needed));
    }
    write_lines(rule, buffer);
    lay(buffer, tally.lines, last.as_bytes());
    Ok(needed)
}

// How long all lines but the last are, how many instructions there are, and how many in plain spelling.
#[derive(Clone, Copy)]
struct Tally {
    lines: usize,
    instructions: usize,
    plain: usize,
}

impl Tally {
    fn of(rule: &[u8]) -> Tally
        requires { length rule.now ≤ 256 }
        ensures lines_value { result.lines ≡ length (lines_of (found rule.now)) }
        ensures instructions_value { result.instructions ≡ length (found rule.now) }
        ensures plain_value { result.plain ≡ plain_in (found rule.now) }
    {
        let mut tally = Tally {
            lines: 0,
            instructions: 0,
            plain: 0,
        };
        for standing in Findings::of(rule) {
            tally = tally.with(standing);
        }
        tally
    }

    // And what stands at one more place.
    fn with(self, standing: Standing) -> Tally
        requires lines_fit { self.lines + length (said_by standing).text < 2 ^ 64 }
        requires instructions_fit { self.instructions + (said_by standing).instructions < 2 ^ 64 }
        requires plain_fit { self.plain + (said_by standing).plain < 2 ^ 64 }
        ensures lines_value { result.lines ≡ self.lines + length (said_by standing).text }
        ensures instructions_value { result.instructions ≡ self.instructions + (said_by standing).instructions }
        ensures plain_value { result.plain ≡ self.plain + (said_by standing).plain }
    {
        match standing {
            Standing::Alone => self,
            Standing::Plain => Tally {
                instructions: self.instructions + 1,
                plain: self.plain + 1,
                ..self
            },
            Standing::Unplain(line) => Tally {
                lines: self.lines + line.as_bytes().len(),
                instructions: self.instructions + 1,
                ..self
            },
        }
    }
}

// The last line.
#[tactic(auto, using(text::proofs::LineLaws::appended_twice), unfolding(crate::specs::Check::counts_of))]
fn counts(plain: usize, instructions: usize) -> Line
    ensures { result ≡ lined (counts_of plain instructions) }
{
    Line::empty()
        .text(b"plain ")
        .decimal(plain)
        .text(b" of ")
        .decimal(instructions)
        .text(b"\n")
}

// All lines but the last.
fn write_lines(rule: &[u8], buffer: &mut [u8])
    requires rule_len_bound { length rule.now ≤ 256 }
    requires rule_in_bounds { length (lines_of (found rule.now)) ≤ length buffer.old }
    ensures { buffer.new ≡ lines_of (found rule.now) ++ drop (length (lines_of (found rule.now))) buffer.old }
{
    let mut place = 0;
    for standing in Findings::of(rule) {
        if let Standing::Unplain(line) = standing {
            let text = line.as_bytes();
            lay(buffer, place, text);
            place += text.len();
        }
    }
}
