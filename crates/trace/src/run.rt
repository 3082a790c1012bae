// Looks until one ends: the run, taken one step at a time.
ghost use Rattle.std.specs.Prelude.{◌≡◌};
ghost use Rattle.nanocore.specs.Numbers.{running};
ghost use Rattle.nanocore.specs.Run.{run_of};
ghost use Rattle.nanocore.specs.Step.{situated};

use crate::look::look;
use nanocore::answer::{Outcome, RunAnswer};
use nanocore::machine::Machine;

pub fn run_by_looks(
    machine: Machine,
    input: &[u8],
    place: usize,
    output: &mut [u8],
    written: usize,
) -> Outcome<RunAnswer>
    ensures { running result output.new ≡ run_of input.now (situated machine place output.old written) }
{
    let mut at = machine;
    let mut read = place;
    let mut printed = written;
    loop {
        let looked = look(at, input, read, &mut *output, printed);
        let after = looked.machine;
        match looked.answer {
            Some(answer) => {
                return Outcome {
                    answer,
                    machine: after,
                    place: looked.place,
                    written: looked.written,
                };
            }
            None => {
                at = after;
                read = looked.place;
                printed = looked.written;
            }
        }
    }
}
