// Until halted, refused or at the limit. A refused run leaves the machine as its last completed step left it.
ghost use Rattle.std.specs.Prelude.{◌≡◌};
ghost use Rattle.nanocore.specs.Numbers.{running};
ghost use Rattle.nanocore.specs.Run.{run_of};
ghost use Rattle.nanocore.specs.Step.{situated};
ghost use Rattle.nanocore.specs.Turns.{as_run};

use crate::answer::{Completed, Outcome, RunAnswer, RunRefusal, StepAnswer, StepRefusal};
use crate::machine::Machine;
use crate::turns::turns;

// All the turns up to the limit were taken where the last of them stepped. A run is not refused as already halted or with a full count: the machine was
// not halted, and a count below a limit is below the largest count.
fn ended(answer: StepAnswer, limit: u16) -> RunAnswer
    ensures { result ≡ as_run answer limit }
{
    match answer {
        Ok(Completed::Halted) | Err(StepRefusal::AlreadyHalted) => Ok(()),
        Ok(Completed::Stepped) | Err(StepRefusal::CountFull) => Err(RunRefusal::LimitReached(
            limit,
        )),
        Err(StepRefusal::Fault(fault)) => Err(RunRefusal::Fault(fault)),
    }
}

impl Machine {
    pub fn run(
        self,
        input: &[u8],
        place: usize,
        output: &mut [u8],
        written: usize,
    ) -> Outcome<RunAnswer>
        ensures { running result output.new ≡ run_of input.now (situated self place output.old written) }
    {
        let count = self.count;
        let limit = self.limit;
        if self.halted {
            return Outcome {
                answer: Ok(()),
                machine: self,
                place,
                written,
            };
        }
        if limit <= count {
            return Outcome {
                answer: Err(RunRefusal::LimitReached(limit)),
                machine: self,
                place,
                written,
            };
        }
        let last = turns(self, limit - count, input, place, output, written);
        Outcome {
            answer: ended(last.answer, limit),
            machine: last.machine,
            place: last.place,
            written: last.written,
        }
    }
}
