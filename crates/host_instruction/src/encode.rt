// An instruction's bytes from numbers: its opcode, the number of its operands' form, and two operands.
ghost use Rattle.std.specs.Prelude.{◌≡◌};
ghost use Rattle.answer_number.specs.Numbered.{number_of};
ghost use Rattle.instruction.specs.Numbers.{encode_number, encoding};
ghost use Rattle.host_instruction.specs.Instruction.{coded, encode_from, encode_with};

use crate::operands::given;
use instruction::encode::{EncodeRefusal, Encoded, form_number};
use op::operation::Op;

pub fn encode(
    opcode: u8,
    form: u8,
    first: u8,
    second: u8,
    bytes: &mut [u8; 3],
    length: &mut usize,
    values: &mut [usize; 2],
) -> usize
    ensures { coded result values.new bytes.new length.new ≡ encode_from opcode form first second }
{
    *bytes = [0; 3];
    *length = 0;
    *values = [0; 2];
    let Some(op) = Op::decode(opcode) else {
        *values = [usize::from(opcode), 0];
        return 3;
    };
    match encode_with(op, form, first, second) {
        Ok(encoded) => {
            let three = encoded.bytes;
            *bytes = three;
            *length = usize::from(encoded.length);
            0
        },
        Err(refusal) => encode_number(refusal),
    }
}

// Operands of another form are refused, a number that is no form's too.
fn encode_with(op: Op, form: u8, first: u8, second: u8) -> Result<Encoded, EncodeRefusal>
    ensures { encoding result ≡ encode_with op form first second }
{
    if form != form_number(op.form()) {
        return Err(EncodeRefusal::OtherForm);
    }
    instruction::encode::encode(op, given(op.form(), first, second))
}

// It has no values.
fn encode_number(refusal: EncodeRefusal) -> usize
    ensures { result ≡ number_of (encode_number refusal) }
{
    match refusal {
        EncodeRefusal::OtherForm => 12,
        EncodeRefusal::NoSuchRegister => 13,
    }
}
