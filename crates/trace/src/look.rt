// One look of a run: on a halted machine, or at the limit, the run ends; else the machine is lent for a step, by which the run goes on or ends.
ghost use Rattle.std.specs.Prelude.{◌≡◌};
ghost use Rattle.nanocore.specs.Step.{situated};
ghost use Rattle.trace.specs.Look.{look_of, looking};
ghost use Rattle.trace.specs.Seen.{as_look};

use console::kept;
use nanocore::answer::{Completed, Outcome, RunAnswer, RunRefusal, StepAnswer, StepRefusal};
use nanocore::machine::Machine;

// The answer of the run, where it ended here. Where there is none, a step completed, HLT's too: there is a next look.
pub fn look(
    machine: Machine,
    input: &[u8],
    place: usize,
    output: &mut [u8],
    written: usize,
) -> Outcome<Option<RunAnswer>>
    ensures { looking result output.new ≡ look_of input.now (situated machine place output.old written) }
{
    let count = machine.count;
    let limit = machine.limit;
    if machine.halted {
        return Outcome {
            answer: Some(Ok(())),
            machine,
            place,
            written,
        };
    }
    if limit <= count {
        return Outcome {
            answer: Some(Err(RunRefusal::LimitReached(limit))),
            machine,
            place,
            written,
        };
    }
    let stepped = kept::step(machine, input, place, output, written);
    let next = stepped.machine;
    Outcome {
        answer: seen(stepped.answer, limit),
        machine: next,
        place: stepped.place,
        written: stepped.written,
    }
}

// The step of a look gives neither 2 nor 9: the machine was not halted, and a count below a limit is below the largest count. The two have what a run
// would answer.
fn seen(answer: StepAnswer, limit: u16) -> Option<RunAnswer>
    ensures { result ≡ as_look answer limit }
{
    match answer {
        Ok(Completed::Stepped | Completed::Halted) => None,
        Err(StepRefusal::AlreadyHalted) => Some(Ok(())),
        Err(StepRefusal::Fault(fault)) => Some(Err(RunRefusal::Fault(fault))),
        Err(StepRefusal::CountFull) => Some(Err(RunRefusal::LimitReached(limit))),
    }
}
