// An instruction's bytes as numbers: its opcode, the number of its operands' form, two operands, its length and how it is spelled.
ghost use Rattle.std.specs.Prelude.{◌≡◌};
ghost use Rattle.host_instruction.specs.Instruction.{decode_from, parted};

use crate::operands::{first, second};
use instruction::encode::form_number;

// The parts: opcode, form, first operand, second operand, length, and 1 where the bytes are the plain spelling.
pub fn decode(opcode: u8, two: u8, three: u8, parts: &mut [usize; 6]) -> usize
    ensures { parted result parts.new ≡ decode_from opcode two three }
{
    match instruction::decode::decode(opcode, two, three) {
        Ok(found) => {
            *parts = [
                usize::from(opcode),
                usize::from(form_number(found.op.form())),
                usize::from(first(found.operands)),
                usize::from(second(found.operands)),
                usize::from(found.op.instruction_len()),
                usize::from(found.plain),
            ];
            0
        },
        Err(_) => {
            *parts = [usize::from(opcode), 0, 0, 0, 0, 0];
            3
        },
    }
}
