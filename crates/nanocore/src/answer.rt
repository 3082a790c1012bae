// What step, run, load and transfer answer.
use crate::machine::Machine;
use effect::Fault;

// How a completed step left the machine.
#[derive(Clone, Copy, PartialEq, Eq, Debug)]
pub enum Completed {
    Stepped,
    Halted,
}

#[derive(Clone, Copy, PartialEq, Eq, Debug)]
pub enum StepRefusal {
    AlreadyHalted,
    Fault(Fault),
    CountFull,
}

pub type StepAnswer = Result<Completed, StepRefusal>;

#[derive(Clone, Copy, PartialEq, Eq, Debug)]
pub enum RunRefusal {
    Fault(Fault),
    LimitReached(u16),
}

// A run that is not refused came to a halt.
pub type RunAnswer = Result<(), RunRefusal>;

// The program does not fit from its start on.
#[derive(Clone, Copy, PartialEq, Eq, Debug)]
pub struct TooLong {
    pub length: usize,
    pub start: u8,
}

pub type LoadAnswer = Result<(), TooLong>;

// The image or its marks are not 256 bytes.
#[derive(Clone, Copy, PartialEq, Eq, Debug)]
pub struct NoImage;

pub type TransferAnswer = Result<(), NoImage>;

// The machine, the input's place and the number of output bytes written, as of the last completed step, or as found where none completed.
#[derive(Clone, Copy)]
pub struct Outcome<A> {
    pub answer: A,
    pub machine: Machine,
    pub place: usize,
    pub written: usize,
}

// The machine as it is handed back; as found where the answer refuses.
#[derive(Clone, Copy)]
pub struct Handed<A> {
    pub answer: A,
    pub machine: Machine,
}
