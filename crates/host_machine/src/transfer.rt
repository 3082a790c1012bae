// The marked bytes of an image into the memory of a machine that the host keeps as its record.
ghost use Rattle.std.specs.Prelude.{true, ◌≡◌};
ghost use Rattle.record.specs.Record.{is_record};
ghost use Rattle.host_machine.specs.Machine.{kept, transfer_from};

use crate::NONE;
use crate::held::{held, put};
use answers::number::transfer_number;

// Image and marks are looked at before the machine: 19 comes before 90.
pub fn transfer(machine: &mut [u8], image: &[u8], marks: &[u8]) -> usize
    ensures machine_after { kept result machine.new
        ≡ transfer_from machine.old image.now marks.now }
    ensures machine_after_2 { is_record machine.old ≡ true → is_record machine.new ≡ true }
{
    if image.len() != 256 || marks.len() != 256 {
        return 19;
    }
    let Some(found) = held(machine) else {
        return NONE;
    };
    let transferred = found.transfer(image, marks);
    put(transferred.machine, machine);
    transfer_number(transferred.answer).number
}
