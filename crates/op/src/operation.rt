// The operations in the order of their bytes, 0x00 to 0x27.
ghost use Rattle.std.specs.Prelude.{◌≡◌};
ghost use Rattle.op.specs.Operations.{byte_of, decoded};

#[derive(Clone, Copy, PartialEq, Eq, Debug)]
pub enum Op {
    HLT = 0x00,
    NOP = 0x01,
    LDI = 0x02,
    LDA = 0x03,
    LDR = 0x04,
    MOV = 0x05,
    STORE = 0x06,
    PUSH = 0x07,
    POP = 0x08,
    ADD = 0x09,
    ADDI = 0x0A,
    SUB = 0x0B,
    SUBI = 0x0C,
    INC = 0x0D,
    DEC = 0x0E,
    AND = 0x0F,
    OR = 0x10,
    XOR = 0x11,
    NOT = 0x12,
    CMP = 0x13,
    SHL = 0x14,
    SHR = 0x15,
    JMP = 0x16,
    JZ = 0x17,
    JNZ = 0x18,
    PRINT = 0x19,
    MUL = 0x1A,
    MULI = 0x1B,
    DIV = 0x1C,
    DIVI = 0x1D,
    MOD = 0x1E,
    MODI = 0x1F,
    CALL = 0x20,
    RET = 0x21,
    ROL = 0x22,
    ROR = 0x23,
    IN = 0x24,
    JMPR = 0x25,
    CALLR = 0x26,
    STR = 0x27,
}

impl Op {
    // The operation that a byte stands for, or none: no byte but its own is taken for NOP.
    // A match, not a table of the forty: a table would be laid out anew at every call.
    pub fn decode(value: u8) -> Option<Op>
        ensures { result ≡ decoded value }
    {
        match value {
            0x00 => Some(Op::HLT),
            0x01 => Some(Op::NOP),
            0x02 => Some(Op::LDI),
            0x03 => Some(Op::LDA),
            0x04 => Some(Op::LDR),
            0x05 => Some(Op::MOV),
            0x06 => Some(Op::STORE),
            0x07 => Some(Op::PUSH),
            0x08 => Some(Op::POP),
            0x09 => Some(Op::ADD),
            0x0A => Some(Op::ADDI),
            0x0B => Some(Op::SUB),
            0x0C => Some(Op::SUBI),
            0x0D => Some(Op::INC),
            0x0E => Some(Op::DEC),
            0x0F => Some(Op::AND),
            0x10 => Some(Op::OR),
            0x11 => Some(Op::XOR),
            0x12 => Some(Op::NOT),
            0x13 => Some(Op::CMP),
            0x14 => Some(Op::SHL),
            0x15 => Some(Op::SHR),
            0x16 => Some(Op::JMP),
            0x17 => Some(Op::JZ),
            0x18 => Some(Op::JNZ),
            0x19 => Some(Op::PRINT),
            0x1A => Some(Op::MUL),
            0x1B => Some(Op::MULI),
            0x1C => Some(Op::DIV),
            0x1D => Some(Op::DIVI),
            0x1E => Some(Op::MOD),
            0x1F => Some(Op::MODI),
            0x20 => Some(Op::CALL),
            0x21 => Some(Op::RET),
            0x22 => Some(Op::ROL),
            0x23 => Some(Op::ROR),
            0x24 => Some(Op::IN),
            0x25 => Some(Op::JMPR),
            0x26 => Some(Op::CALLR),
            0x27 => Some(Op::STR),
            _ => None,
        }
    }
}

impl From<Op> for u8 {
    ghost from_gives = { λ op byte. byte ≡ byte_of op };

    fn from(op: Op) -> u8 {
        op as u8
    }
}
