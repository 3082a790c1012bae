// What a step, a run or a load answered, all of it: the paper's number and values, the machine, the input's place, the number of bytes written. The
// bytes of the output buffer stand beside it.
ghost use Rattle.std.specs.Prelude.{◌%◌, ◌≡◌};
ghost use Rattle.answers.specs.Answer.{answered, answer_by, answer_of};

use crate::number::{load_number, run_number, step_number};
use answer_number::Numbered;
use nanocore::machine::Machine;

#[derive(Clone, Copy, PartialEq, Eq, Debug)]
pub enum Kind {
    Step,
    Run,
    Load,
}

// The numbers: number, first value, second value, pc, sp, flags, halted (0 or 1), count, limit, place, written.
#[derive(Clone, Copy, PartialEq, Eq)]
pub struct Answer {
    pub numbers: [usize; 11],
    pub registers: [u8; 16],
    pub memory: [u8; 256],
}

// What the machine answers. A load takes the input as the program and the place as its start.
pub fn ask(
    kind: Kind,
    machine: Machine,
    input: &[u8],
    place: usize,
    output: &mut [u8],
    written: usize,
) -> Answer
    ensures value { result ≡ answer_of (answered kind machine input.now place output.old written) }
    ensures output_after { output.new
        ≡ (answered kind machine input.now place output.old written).after.output }
{
    match kind {
        Kind::Step => {
            let stepped = machine.step(input, place, output, written);
            of(
                step_number(stepped.answer),
                stepped.machine,
                stepped.place,
                stepped.written,
            )
        }
        Kind::Run => {
            let ran = machine.run(input, place, output, written);
            of(run_number(ran.answer), ran.machine, ran.place, ran.written)
        }
        Kind::Load => {
            let loaded = machine.load(input, (place % 256) as u8);
            of(load_number(loaded.answer), loaded.machine, place, written)
        }
    }
}

// All of it, from its parts.
pub fn of(number: Numbered, machine: Machine, place: usize, written: usize) -> Answer
    ensures { result ≡ answer_by number machine place written }
{
    let registers = machine.registers;
    let memory = machine.memory;
    Answer {
        numbers: [
            number.number,
            number.first,
            number.second,
            usize::from(machine.pc),
            usize::from(machine.sp),
            usize::from(machine.flags),
            usize::from(machine.halted),
            usize::from(machine.count),
            usize::from(machine.limit),
            place,
            written,
        ],
        registers,
        memory,
    }
}
