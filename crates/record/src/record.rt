// The record of a machine: 296 bytes. What so many bytes hold is read whatever they are; whether they are a record at all is asked apart.
ghost use Rattle.std.specs.Prelude.{true, cond, ◌≡◌, eqb, length};
ghost use Rattle.fields.specs.Read.{stretch as bytes_from};
ghost use Rattle.record.specs.Record.{head_of, is_record, machine_of, record_of};

use crate::four::{four, four_at};
use fields::lay::lay;
use fields::read::{byte_at, stretch};
use nanocore::machine::Machine;

pub const LENGTH: usize = 296;

// Whether the bytes are what this build writes of some machine.
#[tactic(auto, unfolding(crate::specs::Record::is_record))]
pub fn is_record(bytes: &[u8]) -> bool
    ensures { result ≡ is_record bytes.now }
{
    bytes.len() == LENGTH && bytes.starts_with(&head(read(bytes)))
}

// The machine that the bytes hold. That they are as many as a record has is the caller's to ask, once for all of them.
pub fn read(bytes: &[u8]) -> Machine
    requires { length bytes.now ≡ 296 }
    ensures { result ≡ machine_of bytes.now }
{
    Machine {
        registers: registers(bytes),
        memory: stretch(bytes, 40),
        pc: byte_at(bytes, 2),
        sp: byte_at(bytes, 3),
        flags: byte_at(bytes, 4),
        halted: byte_at(bytes, 5) == 1,
        count: (four_at(bytes, 8) % 65536) as u16,
        limit: (four_at(bytes, 12) % 65536) as u16,
    }
}

// The sixteen behind the head.
fn registers(bytes: &[u8]) -> [u8; 16]
    ensures { result ≡ bytes_from bytes.now 24 16 }
{
    stretch(bytes, 24)
}

// The record of the machine, where the bytes are as many as a record has; it is one that is_record knows.
pub fn write(machine: Machine, bytes: &mut [u8])
    ensures bytes_after { bytes.new ≡ cond (eqb (length bytes.old) 296) (record_of machine) bytes.old }
    ensures bytes_after_2 { length bytes.old ≡ 296 → is_record bytes.new ≡ true }
{
    if bytes.len() != LENGTH {
        return;
    }
    lay(bytes, 0, &head(machine));
    lay(bytes, 24, &machine.registers);
    lay(bytes, 40, &machine.memory);
}

// All before the registers.
fn head(machine: Machine) -> [u8; 24]
    ensures { result ≡ head_of machine }
{
    let count = four(u32::from(machine.count));
    let limit = four(u32::from(machine.limit));
    [
        1,
        1,
        machine.pc,
        machine.sp,
        machine.flags,
        u8::from(machine.halted),
        0,
        0,
        count[0],
        count[1],
        count[2],
        count[3],
        limit[0],
        limit[1],
        limit[2],
        limit[3],
        0,
        0,
        0,
        0,
        0,
        0,
        0,
        0,
    ]
}
