// The verdict: the line that says what a text of Intel HEX came to.
ghost use Rattle.std.specs.Prelude.{ℕ, ◌++◌, ◌≡◌};
ghost use Rattle.text.specs.Lines.{lined, named};
ghost use Rattle.text.specs.Text.{codes, line_end};
ghost use Rattle.hexread.specs.Numbers.{read_number, refusal_number};
ghost use Rattle.hexverdict.specs.Verdict.{refusal, verdict_of};

use hexread::answer::Refusal;
use text::line::Line;

// What a reading answered, and how many bytes it set.
#[tactic(auto, unfolding(crate::specs::Verdict::verdict_of))]
pub fn verdict(answer: Result<(), Refusal>, count: usize) -> Line
    ensures { result ≡ lined (verdict_of (read_number answer) count) }
{
    match answer {
        Ok(()) => Line::empty()
            .text(b"read ")
            .decimal(count)
            .text(b" bytes\n"),
        Err(refusal) => refused(refusal),
    }
}

// The same for every count: a refusal sets nothing.
#[tactic(auto, unfolding(crate::specs::Verdict::verdict_of))]
fn refused(refusal: Refusal) -> Line
    ensures { (count : ℕ) → result ≡ lined (verdict_of (refusal_number refusal) count) }
{
    match refusal {
        Refusal::NoImage => whole(19),
        Refusal::Shape(line) => in_line(20, line),
        Refusal::Checksum(line) => in_line(21, line),
        Refusal::OtherType(line) => in_line(22, line),
        Refusal::PastEnd(line) => in_line(23, line),
        Refusal::SetTwice(line) => in_line(24, line),
        Refusal::NoEnd => whole(25),
        Refusal::TextAfter => whole(26),
    }
}

// A refusal of the text as a whole.
fn whole(number: usize) -> Line
    ensures { result ≡ lined (refusal number ++ line_end) }
{
    begun(number).text(b"\n")
}

// A refusal for a line of the text.
fn in_line(number: usize, line: usize) -> Line
    ensures { result ≡ lined (refusal number ++ named (codes "line") line ++ line_end) }
{
    begun(number).named(b"line", line).text(b"\n")
}

fn begun(number: usize) -> Line
    ensures { result ≡ lined (refusal number) }
{
    Line::empty().text(b"refused ").decimal(number)
}
