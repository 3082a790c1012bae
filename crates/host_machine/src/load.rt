// A program into the memory of a machine that the host keeps as its record.
ghost use Rattle.std.specs.Prelude.{true, ◌≡◌};
ghost use Rattle.record.specs.Record.{is_record};
ghost use Rattle.host_machine.specs.Machine.{load_from, loaded};

use crate::NONE;
use crate::held::{held, tell};
use answers::number::load_number;

pub fn load(machine: &mut [u8], program: &[u8], start: u8, values: &mut [usize; 2]) -> usize
    ensures machine_after { loaded result values.new machine.new
        ≡ load_from machine.old program.now start values.old }
    ensures machine_after_2 { is_record machine.old ≡ true → is_record machine.new ≡ true }
{
    let Some(found) = held(machine) else {
        return NONE;
    };
    let loaded = found.load(program, start);
    tell(loaded.machine, load_number(loaded.answer), machine, values)
}
