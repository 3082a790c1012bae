// A line of the listing.
ghost use Rattle.std.specs.Prelude.{◌≡◌, ◌++◌};
ghost use Rattle.digits.specs.Digit.{pair_of};
ghost use Rattle.names.specs.Names.{name_of};
ghost use Rattle.text.specs.Lines.{appended, lined};
ghost use Rattle.front.specs.declared.front.Front.TheVariants.{Whole};
ghost use Rattle.front.specs.Line.{byte_text, line_of, operands_text, register_text, spaced, then, words_of};

use digits::digit::pair;
use front::front::Front;
use instruction::decode::Instruction;
use instruction::operands::Operands;
use names::name::name;
use op::operation::Op;
use text::line::Line;

// Address, name and operands; or address, `.DB` and the bytes.
#[tactic(auto, using(text::proofs::LineLaws::appended_twice), unfolding(front::specs::Line::line_of))]
pub fn line(address: u8, front: Front, bytes: &[u8]) -> Line
    ensures { result ≡ lined (line_of address front bytes.now) }
{
    let begun = byte(Line::empty(), address);
    // each arm ends its line itself: a line that both handed on took twice as long
    match front {
        Front::Whole(found) => words(begun, found, bytes).text(b"\n"),
        Front::Alone(b) => then_byte(begun.text(b" .DB"), b).text(b"\n"),
    }
}

// Below, each puts its words behind what the line has already.

// Of an instruction that is not plain all bytes are said, or as many as there are.
fn words(line: Line, found: Instruction, bytes: &[u8]) -> Line
    ensures { result ≡ appended line (words_of (Whole found) bytes.now) }
{
    if found.plain {
        operand_words(then_name(line, found.op), found.operands)
    } else {
        let few = usize::from(found.op.instruction_len()).min(bytes.len());
        then_bytes(line.text(b" .DB"), &bytes[..few], b"0x")
    }
}

fn then_name(line: Line, op: Op) -> Line
    ensures { result ≡ appended line (then (name_of op)) }
{
    line.text(b" ").text(name(op).as_bytes())
}

fn operand_words(line: Line, operands: Operands) -> Line
    ensures { result ≡ appended line (operands_text operands) }
{
    match operands {
        Operands::None => line,
        Operands::Reg(r) => then_register(line, r),
        Operands::RegImm(r, b) | Operands::RegAddr(r, b) => then_byte(then_register(line, r), b),
        Operands::RegReg(d, s) => then_register(then_register(line, d), s),
        Operands::Addr(a) => then_byte(line, a),
    }
}

fn then_register(line: Line, register: u8) -> Line
    ensures { result ≡ appended line (then (register_text register)) }
{
    line.text(b" R").decimal(usize::from(register))
}

fn then_byte(line: Line, b: u8) -> Line
    ensures { result ≡ appended line (then (byte_text b)) }
{
    byte(line.text(b" "), b)
}

// 0x and two upper-case digits.
pub fn byte(line: Line, b: u8) -> Line
    ensures { result ≡ appended line (byte_text b) }
{
    line.text(b"0x").text(&pair(b))
}

// Each byte behind a space: the lead, and two upper-case digits.
pub fn then_bytes(mut line: Line, bytes: &[u8], lead: &[u8]) -> Line
    ensures { result ≡ appended line (spaced (λ b. lead.now ++ pair_of b) bytes.now) }
{
    for b in bytes {
        line = line.text(b" ").text(lead).text(&pair(*b));
    }
    line
}
