// One instruction. A refused step leaves machine, input place and output as found.
ghost use Rattle.std.specs.Prelude.{◌≡◌, false, nat_lt};
ghost use Rattle.nanocore.specs.Machine.{most_count};
ghost use Rattle.nanocore.specs.Numbers.{stepping};
ghost use Rattle.nanocore.specs.Step.{situated, step_of};

use crate::answer::{Outcome, StepAnswer, StepRefusal};
use crate::machine::{MAX_COUNT, Machine};
use crate::turns::turns;

// How many bytes are written in a buffer of one, by whether there is to be room in it.
fn used(room: bool) -> usize
    ensures { nat_lt result 1 ≡ room }
{
    if room { 0 } else { 1 }
}

// At the largest count only HLT completes. The instruction is tried on a copy that has counted nothing, with a byte of its own to print to: where the
// copy's count rises, the step would raise a count that is full. It is tried by the loop, so that the forty operations keep the one caller into which
// the compiler merges them.
fn at_full_count(
    mut machine: Machine,
    input: &[u8],
    place: usize,
    output: &[u8],
    written: usize,
) -> Outcome<StepAnswer>
    requires { (machine.halted ≡ false) × (machine.count ≡ most_count) }
    ensures { stepping result output.now ≡ step_of input.now (situated machine place output.now written) }
{
    let mut early = machine;
    early.count = 0;
    let mut scratch = [0u8; 1];
    let room = written < output.len();
    let tried = turns(early, 1, input, place, &mut scratch, used(room));
    if 0 < tried.machine.count {
        return Outcome {
            answer: Err(StepRefusal::CountFull),
            machine,
            place,
            written,
        };
    }
    machine.halted = tried.machine.halted;
    Outcome {
        answer: tried.answer,
        machine,
        place,
        written,
    }
}

impl Machine {
    pub fn step(
        self,
        input: &[u8],
        place: usize,
        output: &mut [u8],
        written: usize,
    ) -> Outcome<StepAnswer>
        ensures { stepping result output.new ≡ step_of input.now (situated self place output.old written) }
    {
        if self.halted {
            return Outcome {
                answer: Err(StepRefusal::AlreadyHalted),
                machine: self,
                place,
                written,
            };
        }
        if self.count == MAX_COUNT {
            return at_full_count(self, input, place, &*output, written);
        }
        turns(self, 1, input, place, output, written)
    }
}
