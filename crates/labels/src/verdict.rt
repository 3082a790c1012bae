// The line that a refused source gets.
ghost use Rattle.std.specs.Prelude.{◌≡◌, ◌∷◌, []};
ghost use Rattle.text.specs.Lines.{lined};
ghost use Rattle.labels.specs.Numbers.{refusal_number};
ghost use Rattle.labels.specs.Verdict.{verdict_of};

use crate::pass::Refusal;
use text::line::Line;

// `refused` and the number; but for 15, the line behind it.
#[tactic(auto, unfolding(crate::specs::Verdict::verdict_of, text::specs::Decimal::decimal, text::specs::Decimal::digits_of))]
pub fn verdict(refusal: Refusal) -> Line
    ensures { result ≡ lined (verdict_of (refusal_number refusal)) }
{
    match refusal {
        Refusal::NoSource => Line::empty().text(b"refused 15\n"),
        Refusal::ShortString(line) => in_line(16, line),
        Refusal::NoOperation(line) => in_line(17, line),
        Refusal::TooManyLabels(line) => in_line(18, line),
    }
}

#[tactic(auto, using(text::proofs::LineLaws::appended_twice, crate::proofs::VerdictLaws::with_line))]
fn in_line(number: usize, line: usize) -> Line
    ensures { result ≡ lined (verdict_of (number ∷ line ∷ [])) }
{
    Line::empty()
        .text(b"refused ")
        .decimal(number)
        .text(b" ")
        .decimal(line)
        .text(b"\n")
}
