// An instruction from its three bytes. The operands have the operation's form, so no caller meets a mismatch.
ghost use Rattle.std.specs.Prelude.{◌≡◌};
ghost use Rattle.instruction.specs.Decode.{decoded_of};
ghost use Rattle.instruction.specs.Numbers.{decoding, spelling};
ghost use Rattle.instruction.specs.Plain.{plain_by_form, spelling_of};

use crate::operands::Operands;
use op::form::Form;
use op::operation::Op;

// Plain says whether its bytes are what encode would spell.
#[derive(Clone, Copy, PartialEq, Eq, Debug)]
pub struct Instruction {
    pub op: Op,
    pub operands: Operands,
    pub plain: bool,
}

// An opcode that is no operation's, as it was read.
#[derive(Clone, Copy, PartialEq, Eq, Debug)]
pub struct InvalidOpcode {
    pub opcode: u8,
}

#[tactic(auto, unfolding(crate::specs::Decode::decoded_of, crate::specs::Plain::spelling_of))]
pub fn decode(opcode: u8, second: u8, third: u8) -> Result<Instruction, InvalidOpcode>
    ensures decoded { decoding result ≡ decoded_of opcode second third }
    ensures spelling { spelling result ≡ spelling_of opcode second third }
{
    let op = Op::decode(opcode).ok_or(InvalidOpcode { opcode })?;
    let form = op.form();
    Ok(Instruction {
        op,
        operands: Operands::of_form(form, second, third),
        plain: is_plain(form, second),
    })
}

// Encode gives every byte back but a lone register's: there it puts 0 into the high nibble, which decode does not look at.
fn is_plain(form: Form, second: u8) -> bool
    ensures { result ≡ plain_by_form form second }
{
    match form {
        Form::Reg | Form::RegImm | Form::RegAddr => second < 16,
        Form::None | Form::RegReg | Form::Addr => true,
    }
}
