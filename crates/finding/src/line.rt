// The line of an instruction that is not in plain spelling.
ghost use Rattle.std.specs.Prelude.{◌≡◌, take};
ghost use Rattle.instruction.specs.Encode.{encoded_of};
ghost use Rattle.text.specs.Lines.{appended, lined};
ghost use Rattle.digits.specs.Digit.{pair_of};
ghost use Rattle.front.specs.Line.{spaced};
ghost use Rattle.finding.specs.Line.{line_of};

use instruction::encode::encode;
use instruction::operands::Operands;
use op::operation::Op;
use row::line::{byte, then_bytes};
use text::line::Line;

// Its address, its bytes, and those that encode gives for what they were decoded to.
#[tactic(auto, using(text::proofs::LineLaws::appended_twice), unfolding(crate::specs::Line::line_of))]
pub fn line(address: u8, bytes: &[u8], op: Op, operands: Operands) -> Line
    ensures { result
        ≡ lined
        (line_of address bytes.now (take (encoded_of op operands).length (encoded_of op operands).bytes)) }
{
    let begun = then_bytes(byte(Line::empty(), address), bytes, b"");
    then_plainly(begun.text(b" plain"), op, operands).text(b"\n")
}

// Encode gives none where it refuses.
fn then_plainly(line: Line, op: Op, operands: Operands) -> Line
    ensures { result
        ≡ appended line (spaced pair_of (take (encoded_of op operands).length (encoded_of op operands).bytes)) }
{
    match encode(op, operands) {
        Ok(encoded) => then_bytes(line, &encoded.bytes[..usize::from(encoded.length)], b""),
        Err(_) => line,
    }
}
