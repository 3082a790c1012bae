// The form of an operation's operands, and the length of the instruction that it makes.
ghost use Rattle.std.specs.Prelude.{◌≡◌};
ghost use Rattle.op.specs.Operations.{form_of, length_of};

use crate::operation::Op;

// Each with its place in the table of operands.
#[derive(Clone, Copy, PartialEq, Eq, Debug)]
pub enum Form {
    None = 0,
    RegImm = 1,
    RegAddr = 2,
    Reg = 3,
    RegReg = 4,
    Addr = 5,
}

impl Form {
    pub fn length(self) -> u8
        ensures { result ≡ length_of self }
    {
        match self {
            Form::None => 1,
            Form::Reg => 2,
            Form::RegImm => 3,
            Form::RegReg => 2,
            Form::RegAddr => 3,
            Form::Addr => 2,
        }
    }
}

impl Op {
    pub fn form(self) -> Form
        ensures { result ≡ form_of self }
    {
        match self {
            Op::HLT | Op::NOP | Op::RET => Form::None,
            Op::PUSH
            | Op::POP
            | Op::INC
            | Op::DEC
            | Op::NOT
            | Op::SHL
            | Op::SHR
            | Op::PRINT
            | Op::ROL
            | Op::ROR
            | Op::IN
            | Op::JMPR
            | Op::CALLR => Form::Reg,
            Op::LDI | Op::ADDI | Op::SUBI | Op::MULI | Op::DIVI | Op::MODI => Form::RegImm,
            Op::LDR
            | Op::MOV
            | Op::ADD
            | Op::SUB
            | Op::AND
            | Op::OR
            | Op::XOR
            | Op::CMP
            | Op::MUL
            | Op::DIV
            | Op::MOD
            | Op::STR => Form::RegReg,
            Op::LDA | Op::STORE => Form::RegAddr,
            Op::JMP | Op::JZ | Op::JNZ | Op::CALL => Form::Addr,
        }
    }

    pub fn instruction_len(self) -> u8
        ensures { result ≡ length_of (form_of self) }
    {
        self.form().length()
    }
}
