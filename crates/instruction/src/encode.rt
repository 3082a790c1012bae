// Three bytes from an instruction. A refusal gives no bytes.
ghost use Rattle.std.specs.Prelude.{◌≡◌};
ghost use Rattle.instruction.specs.Encode.{form_number, encoded_of};
ghost use Rattle.instruction.specs.Numbers.{encoding};

use crate::operands::Operands;
use op::form::Form;
use op::operation::Op;

// The first `length` bytes are the instruction; the others are 0.
#[derive(Clone, Copy, PartialEq, Eq, Debug)]
pub struct Encoded {
    pub bytes: [u8; 3],
    pub length: u8,
}

#[derive(Clone, Copy, PartialEq, Eq, Debug)]
pub enum EncodeRefusal {
    OtherForm,
    NoSuchRegister,
}

// The form's place in the table of operands: the number that another language knows it by.
pub fn form_number(form: Form) -> u8
    ensures { result ≡ form_number form }
{
    form as u8
}

// Operands of another form are refused before a register that does not exist.
#[tactic(auto, unfolding(crate::specs::Encode::encoded_of))]
pub fn encode(op: Op, operands: Operands) -> Result<Encoded, EncodeRefusal>
    ensures { encoding result ≡ encoded_of op operands }
{
    if operands.form() != op.form() {
        return Err(EncodeRefusal::OtherForm);
    }
    if !operands.registers_exist() {
        return Err(EncodeRefusal::NoSuchRegister);
    }
    Ok(Encoded {
        bytes: [u8::from(op), operands.second_byte(), operands.third_byte()],
        length: op.instruction_len(),
    })
}
