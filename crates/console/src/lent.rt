// The machine where it lies. Each function takes the machine out, calls the method by value, and puts the next machine back.
ghost use Rattle.std.specs.Prelude.{◌≡◌};
ghost use Rattle.nanocore.specs.Load.{load_of};
ghost use Rattle.nanocore.specs.Run.{run_of};
ghost use Rattle.nanocore.specs.Step.{situated, step_of};
ghost use Rattle.console.specs.Reports.{loaded, ran, stepped};

use crate::report::Report;
use nanocore::answer::{LoadAnswer, Outcome, RunAnswer, StepAnswer};
use nanocore::machine::Machine;

// One instruction. A refused step leaves the machine, the place, the number and the buffer as found.
pub fn step(
    machine: &mut Machine,
    input: &[u8],
    place: usize,
    output: &mut [u8],
    written: usize,
) -> Report<StepAnswer>
    ensures { stepped result machine.new output.new ≡ step_of input.now (situated machine.old place output.old written) }
{
    kept(machine.step(input, place, output, written), machine)
}

// Puts the next machine where it lies, and reports the rest.
fn kept<A>(outcome: Outcome<A>, machine: &mut Machine) -> Report<A>
    ensures reported { result ≡ record { answer = outcome.answer; place = outcome.place; written = outcome.written } }
    ensures machine_after { machine.new ≡ outcome.machine }
{
    *machine = outcome.machine;
    Report {
        answer: outcome.answer,
        place: outcome.place,
        written: outcome.written,
    }
}

// Until halted, refused or at the limit. A refused run leaves the machine as its last completed step left it.
pub fn run(
    machine: &mut Machine,
    input: &[u8],
    place: usize,
    output: &mut [u8],
    written: usize,
) -> Report<RunAnswer>
    ensures { ran result machine.new output.new ≡ run_of input.now (situated machine.old place output.old written) }
{
    kept(machine.run(input, place, output, written), machine)
}

// A program into memory. One that is too long leaves the machine as found.
pub fn load(machine: &mut Machine, program: &[u8], start: u8) -> LoadAnswer
    ensures { loaded result machine.new ≡ load_of machine.old program.now start }
{
    let loaded = machine.load(program, start);
    *machine = loaded.machine;
    loaded.answer
}
