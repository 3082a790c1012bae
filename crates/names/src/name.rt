// The names of the operations: upper case and exact, written and read.
ghost use Rattle.std.specs.Prelude.{◌≡◌};
ghost use Rattle.names.specs.Names.{name_of, named};

use op::operation::Op;

pub fn name(op: Op) -> &'static str
    ensures { result.now ≡ name_of op }
{
    match op {
        Op::HLT => "HLT",
        Op::NOP => "NOP",
        Op::LDI => "LDI",
        Op::LDA => "LDA",
        Op::LDR => "LDR",
        Op::MOV => "MOV",
        Op::STORE => "STORE",
        Op::PUSH => "PUSH",
        Op::POP => "POP",
        Op::ADD => "ADD",
        Op::ADDI => "ADDI",
        Op::SUB => "SUB",
        Op::SUBI => "SUBI",
        Op::INC => "INC",
        Op::DEC => "DEC",
        Op::AND => "AND",
        Op::OR => "OR",
        Op::XOR => "XOR",
        Op::NOT => "NOT",
        Op::CMP => "CMP",
        Op::SHL => "SHL",
        Op::SHR => "SHR",
        Op::JMP => "JMP",
        Op::JZ => "JZ",
        Op::JNZ => "JNZ",
        Op::PRINT => "PRINT",
        Op::MUL => "MUL",
        Op::MULI => "MULI",
        Op::DIV => "DIV",
        Op::DIVI => "DIVI",
        Op::MOD => "MOD",
        Op::MODI => "MODI",
        Op::CALL => "CALL",
        Op::RET => "RET",
        Op::ROL => "ROL",
        Op::ROR => "ROR",
        Op::IN => "IN",
        Op::JMPR => "JMPR",
        Op::CALLR => "CALLR",
        Op::STR => "STR",
    }
}

// The operation that has this name, upper case and exact, or none: the forty are tried in the order of their bytes.
pub fn from_name(text: &[u8]) -> Option<Op>
    ensures { result ≡ named text.now }
{
    for value in 0..40 {
        let op = Op::decode(value)?;
        if text == name(op).as_bytes() {
            return Some(op);
        }
    }
    None
}
