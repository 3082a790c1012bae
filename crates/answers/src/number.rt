// The paper's number and values of each answer, 0 for a value that there is not.
ghost use Rattle.std.specs.Prelude.{◌≡◌};
ghost use Rattle.answer_number.specs.Numbered.{numbered};
ghost use Rattle.effect.specs.Numbers.{fault_number};
ghost use Rattle.nanocore.specs.Numbers.{step_number, run_number, load_number, transfer_number};

use answer_number::{Numbered, numbers};
use effect::Fault;
use nanocore::answer::{
    Completed, LoadAnswer, NoImage, RunAnswer, RunRefusal, StepAnswer, StepRefusal, TooLong,
    TransferAnswer,
};

pub fn fault_number(fault: Fault) -> Numbered
    ensures { result ≡ numbered (fault_number fault) }
{
    match fault {
        Fault::InvalidOpcode { opcode, pc } => numbers(3, usize::from(opcode), usize::from(pc)),
        Fault::StackFull(sp) => numbers(4, usize::from(sp), 0),
        Fault::StackEmpty(sp) => numbers(5, usize::from(sp), 0),
        Fault::DivisorZero(opcode) => numbers(6, usize::from(opcode), 0),
        Fault::NoInput => numbers(7, 0, 0),
        Fault::NoRoom => numbers(8, 0, 0),
    }
}

pub fn step_number(answer: StepAnswer) -> Numbered
    ensures { result ≡ numbered (step_number answer) }
{
    match answer {
        Ok(Completed::Stepped) => numbers(0, 0, 0),
        Ok(Completed::Halted) => numbers(1, 0, 0),
        Err(StepRefusal::AlreadyHalted) => numbers(2, 0, 0),
        Err(StepRefusal::Fault(fault)) => fault_number(fault),
        Err(StepRefusal::CountFull) => numbers(9, 0, 0),
    }
}

pub fn run_number(answer: RunAnswer) -> Numbered
    ensures { result ≡ numbered (run_number answer) }
{
    match answer {
        Ok(()) => numbers(1, 0, 0),
        Err(RunRefusal::Fault(fault)) => fault_number(fault),
        Err(RunRefusal::LimitReached(limit)) => numbers(10, usize::from(limit), 0),
    }
}

pub fn load_number(answer: LoadAnswer) -> Numbered
    ensures { result ≡ numbered (load_number answer) }
{
    match answer {
        Ok(()) => numbers(0, 0, 0),
        Err(TooLong { length, start }) => numbers(11, length, usize::from(start)),
    }
}

pub fn transfer_number(answer: TransferAnswer) -> Numbered
    ensures { result ≡ numbered (transfer_number answer) }
{
    match answer {
        Ok(()) => numbers(0, 0, 0),
        Err(NoImage) => numbers(19, 0, 0),
    }
}
