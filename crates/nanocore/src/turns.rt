// Up to so many instructions, one after the other. Registers and memory lie in local arrays, so that an instruction writes the one place that it
// alters; the machine record is made once, at the end.
ghost use Rattle.std.specs.Prelude.{◌≡◌, ◌+◌, ◌≤◌};
ghost use Rattle.nanocore.specs.Machine.{most_count};
ghost use Rattle.nanocore.specs.Step.{situated};
ghost use Rattle.nanocore.specs.Turns.{awake, ended_with, turns_of};
ghost use Rattle.nanocore.specs.Numbers.{stepping};

use crate::answer::{Completed, Outcome, StepAnswer, StepRefusal};
use crate::machine::Machine;
use crate::write::{write_memory, write_output, write_register};
use effect::Turn;
use effect::moves::Core;
use turn::fetch::turn;

// The numbers that the turns move beside the machine's core.
#[derive(Clone, Copy)]
struct Tally {
    count: u16,
    limit: u16,
    written: usize,
}

// The answer, with the machine that the parts make.
fn ended(
    answer: StepAnswer,
    registers: [u8; 16],
    memory: [u8; 256],
    core: Core,
    halted: bool,
    tally: Tally,
) -> Outcome<StepAnswer>
    ensures { result ≡ ended_with answer registers memory core halted tally }
{
    Outcome {
        answer,
        machine: Machine {
            registers,
            memory,
            pc: core.pc,
            sp: core.sp,
            flags: core.flags,
            halted,
            count: tally.count,
            limit: tally.limit,
        },
        place: core.place,
        written: tally.written,
    }
}

// Halted or not, the machine is taken as not halted: a halted one is its callers' to answer. So is a count that the turns could raise too far: were
// it tested after each turn, what stood before the turn would have to be kept through it.
pub fn turns(
    machine: Machine,
    most: u16,
    input: &[u8],
    place: usize,
    output: &mut [u8],
    written: usize,
) -> Outcome<StepAnswer>
    requires { machine.count + most ≤ most_count }
    ensures { stepping result output.new ≡ turns_of most input.now (situated (awake machine) place output.old written) }
{
    let mut registers = machine.registers;
    let mut memory = machine.memory;
    let mut core = Core {
        pc: machine.pc,
        sp: machine.sp,
        flags: machine.flags,
        place,
    };
    let mut tally = Tally {
        count: machine.count,
        limit: machine.limit,
        written,
    };
    for _ in 0..most {
        let room = tally.written < output.len();
        match turn(&registers, &memory, core, input, room) {
            Err(fault) => {
                let refused = Err(StepRefusal::Fault(fault));
                return ended(refused, registers, memory, core, false, tally);
            }
            Ok(Turn::Halt) => {
                return ended(Ok(Completed::Halted), registers, memory, core, true, tally);
            }
            Ok(Turn::Done(effect)) => {
                let write = effect.write;
                write_register(write, &mut registers);
                write_memory(write, &mut memory);
                tally.written = write_output(write, &mut *output, tally.written);
                tally.count += 1;
                core = Core {
                    pc: effect.pc,
                    sp: effect.sp,
                    flags: effect.flags,
                    place: effect.place,
                };
            }
        }
    }
    ended(
        Ok(Completed::Stepped),
        registers,
        memory,
        core,
        false,
        tally,
    )
}
