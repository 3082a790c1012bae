// The console's own storage: one machine record is kept in a local and lent. The parameters are plain, so that whoever calls it lends nothing.
ghost use Rattle.std.specs.Prelude.{◌≡◌};
ghost use Rattle.nanocore.specs.Numbers.{stepping};
ghost use Rattle.nanocore.specs.Step.{situated, step_of};

use crate::lent;
use nanocore::answer::{Outcome, StepAnswer};
use nanocore::machine::Machine;

pub fn step(
    machine: Machine,
    input: &[u8],
    place: usize,
    output: &mut [u8],
    written: usize,
) -> Outcome<StepAnswer>
    ensures { stepping result output.new ≡ step_of input.now (situated machine place output.old written) }
{
    let mut kept = machine;
    let report = lent::step(&mut kept, input, place, output, written);
    Outcome {
        answer: report.answer,
        machine: kept,
        place: report.place,
        written: report.written,
    }
}
