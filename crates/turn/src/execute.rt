// The forty operations at work, from the bytes behind the opcode: what each does, or its own fault.
ghost use Rattle.std.specs.Prelude.{◌≡◌, ◌+◌, ◌%◌, slice_index};
ghost use Rattle.op.specs.Operations.{form_of};
ghost use Rattle.turn.specs.Meaning.{seen, fate_of};
ghost use Rattle.effect.specs.Numbers.{fate};
ghost use Rattle.instruction.specs.Operands.{operands_of};

use byte::arithmetic::{
    overflowing_add, overflowing_div, overflowing_mul, overflowing_rem, overflowing_sub,
    wrapping_sub,
};
use byte::flags::{FLAG_Z, get_flag};
use byte::shift::{rotate_left, rotate_right, shift_left, shift_right};
use effect::moves::Core;
use effect::{Fault, Turn, Write};
use op::operation::Op;

// Byte three, read only by the operations that have one: at every fetch it would cost those that do not.
fn third(memory: &[u8; 256], pc: u8) -> u8
    ensures { result ≡ slice_index memory.now ((pc + 2) % 256) }
{
    memory[usize::from(pc.wrapping_add(2))]
}

// d and s are the two halves of byte two, and at_d and at_s what their registers hold. A lone register is s.
#[tactic(auto, unfolding(crate::specs::Meaning::fate_of))]
pub fn execute(
    op: Op,
    second: u8,
    registers: &[u8; 16],
    memory: &[u8; 256],
    core: Core,
    input: &[u8],
    room: bool,
) -> Result<Turn, Fault>
    ensures { fate result
        ≡ fate_of
        op
        (operands_of (form_of op) second (slice_index memory.now ((core.pc + 2) % 256)))
        (seen registers.now memory.now core input.now room) }
{
    let pc = core.pc;
    let d = second / 16;
    let s = second % 16;
    let at_d = registers[usize::from(d)];
    let at_s = registers[usize::from(s)];
    let effect = match op {
        Op::HLT => return Ok(Turn::Halt),
        Op::NOP => core.keep(1, Write::Nothing),
        Op::LDI => core.load(3, s, third(memory, pc)),
        Op::LDA => core.load_from(3, s, memory, third(memory, pc)),
        Op::LDR => core.load_from(2, d, memory, at_s),
        Op::MOV => core.load(2, d, at_s),
        Op::STORE => core.keep(3, Write::Memory(third(memory, pc), at_s)),
        Op::PUSH => core.push(at_s)?,
        Op::POP => core.pop(s, memory)?,
        Op::ADD => core.result(2, d, overflowing_add(at_d, at_s)),
        Op::ADDI => core.result(3, s, overflowing_add(at_s, third(memory, pc))),
        Op::SUB => core.result(2, d, overflowing_sub(at_d, at_s)),
        Op::SUBI => core.result(3, s, overflowing_sub(at_s, third(memory, pc))),
        Op::INC => core.load(2, s, at_s.wrapping_add(1)),
        Op::DEC => core.load(2, s, wrapping_sub(at_s, 1)),
        Op::AND => core.load(2, d, at_d & at_s),
        Op::OR => core.load(2, d, at_d | at_s),
        Op::XOR => core.load(2, d, at_d ^ at_s),
        Op::NOT => core.load(2, s, !at_s),
        Op::CMP => core.compare(2, overflowing_sub(at_d, at_s)),
        Op::SHL => core.result(2, s, shift_left(at_s)),
        Op::SHR => core.result(2, s, shift_right(at_s)),
        Op::JMP => core.jump(second),
        Op::JZ => core.branch(second, get_flag(core.flags, FLAG_Z)),
        Op::JNZ => core.branch(second, !get_flag(core.flags, FLAG_Z)),
        Op::PRINT => core.print(at_s, room)?,
        Op::MUL => core.result(2, d, overflowing_mul(at_d, at_s)),
        Op::MULI => core.result(3, s, overflowing_mul(at_s, third(memory, pc))),
        Op::DIV => core.divide(0x1C, at_s, 2, d, overflowing_div(at_d, at_s))?,
        Op::DIVI => {
            let by = third(memory, pc);
            core.divide(0x1D, by, 3, s, overflowing_div(at_s, by))?
        },
        Op::MOD => core.divide(0x1E, at_s, 2, d, overflowing_rem(at_d, at_s))?,
        Op::MODI => {
            let by = third(memory, pc);
            core.divide(0x1F, by, 3, s, overflowing_rem(at_s, by))?
        },
        Op::CALL => core.call(second)?,
        Op::RET => core.ret(memory)?,
        Op::ROL => core.result(2, s, rotate_left(at_s)),
        Op::ROR => core.result(2, s, rotate_right(at_s)),
        Op::IN => core.take(s, input)?,
        Op::JMPR => core.jump(at_s),
        Op::CALLR => core.call(at_s)?,
        Op::STR => core.keep(2, Write::Memory(at_s, at_d)),
    };
    Ok(Turn::Done(effect))
}
