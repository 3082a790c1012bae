// What an instruction comes to, and the moves that the operations are made of. No instruction writes two places: each writes nothing, one
// register, one memory byte or one output byte, and leaves pc, sp, flags and the input's place.
#![tactic(auto)]

// Where the machine stands, and the plain moves from there: on, by a load, by a jump.
pub mod moves;
// Results with flags.
pub mod arithmetic;
// What goes to the stack and comes from it.
pub mod stack;
// What comes in and what is printed.
pub mod port;

#[derive(Clone, Copy)]
pub enum Write {
    Nothing,
    // the register, and the byte that it takes
    Register(u8, u8),
    // the address, and the byte that it takes
    Memory(u8, u8),
    Output(u8),
}

#[derive(Clone, Copy)]
pub struct Effect {
    pub write: Write,
    pub pc: u8,
    pub sp: u8,
    pub flags: u8,
    pub place: usize,
}

// Why an instruction may not complete.
#[derive(Clone, Copy, PartialEq, Eq, Debug)]
pub enum Fault {
    InvalidOpcode { opcode: u8, pc: u8 },
    StackFull(u8),
    StackEmpty(u8),
    DivisorZero(u8),
    NoInput,
    NoRoom,
}

// How an instruction ends that meets no fault.
#[derive(Clone, Copy)]
pub enum Turn {
    Done(Effect),
    Halt,
}
