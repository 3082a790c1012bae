// A run of a machine that the host keeps as its record.
ghost use Rattle.std.specs.Prelude.{true, ◌≡◌};
ghost use Rattle.record.specs.Record.{is_record};
ghost use Rattle.host_machine.specs.Machine.{moved, run_from};

use crate::NONE;
use crate::held::{held, tell};
use answers::number::run_number;

pub fn run(
    machine: &mut [u8],
    input: &[u8],
    place: &mut usize,
    output: &mut [u8],
    written: &mut usize,
    values: &mut [usize; 2],
) -> usize
    ensures written_after { moved result values.new machine.new place.new output.new written.new
        ≡ run_from machine.old input.now place.old output.old written.old values.old }
    ensures machine_after { is_record machine.old ≡ true → is_record machine.new ≡ true }
{
    let Some(found) = held(machine) else {
        return NONE;
    };
    let outcome = found.run(input, *place, output, *written);
    *place = outcome.place;
    *written = outcome.written;
    tell(outcome.machine, run_number(outcome.answer), machine, values)
}
