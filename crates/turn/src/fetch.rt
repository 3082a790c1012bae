// One instruction at pc: fetched, decoded and carried out, or refused.
ghost use Rattle.std.specs.Prelude.{◌≡◌};
ghost use Rattle.effect.specs.Numbers.{fate};
ghost use Rattle.turn.specs.Meaning.{seen};
ghost use Rattle.turn.specs.Turn.{turn_of};

use crate::execute::execute;
use effect::moves::Core;
use effect::{Fault, Turn};
use op::operation::Op;

#[tactic(auto, unfolding(crate::specs::Turn::turn_of, instruction::specs::Decode::decoded_of))]
pub fn turn(
    registers: &[u8; 16],
    memory: &[u8; 256],
    core: Core,
    input: &[u8],
    room: bool,
) -> Result<Turn, Fault>
    ensures { fate result ≡ turn_of (seen registers.now memory.now core input.now room) }
{
    let pc = core.pc;
    let opcode = memory[usize::from(pc)];
    let second = memory[usize::from(pc.wrapping_add(1))];
    let Some(op) = Op::decode(opcode) else {
        return Err(Fault::InvalidOpcode { opcode, pc });
    };
    execute(op, second, registers, memory, core, input, room)
}
