// A fresh machine, as its record.
ghost use Rattle.std.specs.Prelude.{true, ◌≡◌};
ghost use Rattle.record.specs.Record.{is_record};
ghost use Rattle.host_machine.specs.Machine.{fresh_of, kept};

use crate::NONE;
use nanocore::machine::Machine;
use record::record::{LENGTH, write};

pub fn fresh(machine: &mut [u8]) -> usize
    ensures machine_after { kept result machine.new ≡ fresh_of machine.old }
    ensures machine_after_2 { result ≡ 0 → is_record machine.new ≡ true }
{
    if machine.len() != LENGTH {
        return NONE;
    }
    write(Machine::fresh(), machine);
    0
}
