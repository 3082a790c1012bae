// Opcodes, names and flags: the other cases that were compared.
ghost use Rattle.std.specs.Prelude.{◌≡◌};
ghost use Rattle.lines.specs.Table.{opcode_answer, name_answer, flags_answer, opcode_verdict, name_verdict, flags_verdict};

use compare::verdict::{Mismatch, Part, Verdict, parted};
use fields::read::{byte_at, stretch};
use names::name::{from_name, name as name_of};
use nanocore::machine::Machine;
use op::operation::Op;

// A byte: the operation, its byte, length and name.
#[tactic(auto, unfolding(crate::specs::Table::opcode_verdict))]
pub fn opcode(case: &[u8]) -> Verdict
    ensures { result ≡ opcode_verdict case.now }
{
    if case.len() != 10 {
        return Err(Mismatch::Torn(10));
    }
    let ours = opcode_answer(byte_at(case, 0));
    parted(Part::Number, &ours, &case[1..])
}

// A text: the operation that it names.
#[tactic(auto, unfolding(crate::specs::Table::name_verdict))]
pub fn name(case: &[u8]) -> Verdict
    ensures { result ≡ name_verdict case.now }
{
    let end = 1 + usize::from(byte_at(case, 0));
    let needed = end + 2;
    if case.len() != needed {
        return Err(Mismatch::Torn(needed));
    }
    let ours = name_answer(&case[1..end]);
    parted(Part::Number, &ours, &case[end..])
}

// Flags and a byte: set, cleared, asked for, and updated by the byte as a result.
#[tactic(auto, unfolding(crate::specs::Table::flags_verdict))]
pub fn flags(case: &[u8]) -> Verdict
    ensures { result ≡ flags_verdict case.now }
{
    if case.len() != 6 {
        return Err(Mismatch::Torn(6));
    }
    let ours = flags_answer(byte_at(case, 0), byte_at(case, 1));
    parted(Part::Number, &ours, &case[2..])
}

#[tactic(auto, using(names::proofs::NameLaws::name_short))]
fn opcode_answer(value: u8) -> [u8; 9]
    ensures { result ≡ opcode_answer value }
{
    let Some(op) = Op::decode(value) else {
        return [0; 9];
    };
    let name = name_of(op).as_bytes();
    let [a, b, c, d, e]: [u8; 5] = stretch(name, 0);
    [
        1,
        u8::from(op),
        op.instruction_len(),
        name.len() as u8,
        a,
        b,
        c,
        d,
        e,
    ]
}

fn name_answer(text: &[u8]) -> [u8; 2]
    ensures { result ≡ name_answer text.now }
{
    match from_name(text) {
        Some(op) => [1, u8::from(op)],
        None => [0; 2],
    }
}

fn flags_answer(flags: u8, byte: u8) -> [u8; 4]
    ensures { result ≡ flags_answer flags byte }
{
    let mut machine = Machine::fresh();
    machine.flags = flags;
    [
        machine.set_flag(byte).flags,
        machine.clear_flag(byte).flags,
        u8::from(machine.get_flag(byte)),
        machine.update_zn_flags(byte).flags,
    ]
}
