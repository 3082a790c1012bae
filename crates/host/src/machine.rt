// A machine that the host keeps as its record, in place.
ghost use Rattle.std.specs.Prelude.{true, ◌≡◌};
ghost use Rattle.record.specs.Record.{is_record};
ghost use Rattle.host_machine.specs.Machine.{fresh_of, kept, load_from, loaded, moved, run_from, step_from, transfer_from};

use host_machine::fresh::fresh;
use host_machine::load::load;
use host_machine::run::run;
use host_machine::step::step;
use host_machine::transfer::transfer;

#[unsafe(no_mangle)]
pub extern "C" fn nanocore_fresh(machine: &mut [u8]) -> usize
    ensures machine_after { kept result machine.new ≡ fresh_of machine.old }
    ensures machine_after_2 { result ≡ 0 → is_record machine.new ≡ true }
{
    fresh(machine)
}

#[unsafe(no_mangle)]
pub extern "C" fn nanocore_load(
    machine: &mut [u8],
    program: &[u8],
    start: u8,
    values: &mut [usize; 2],
) -> usize
    ensures machine_after { loaded result values.new machine.new
        ≡ load_from machine.old program.now start values.old }
    ensures machine_after_2 { is_record machine.old ≡ true → is_record machine.new ≡ true }
{
    load(machine, program, start, values)
}

#[unsafe(no_mangle)]
pub extern "C" fn nanocore_step(
    machine: &mut [u8],
    input: &[u8],
    place: &mut usize,
    output: &mut [u8],
    written: &mut usize,
    values: &mut [usize; 2],
) -> usize
    ensures written_after { moved result values.new machine.new place.new output.new written.new
        ≡ step_from machine.old input.now place.old output.old written.old values.old }
    ensures machine_after { is_record machine.old ≡ true → is_record machine.new ≡ true }
{
    step(machine, input, place, output, written, values)
}

#[unsafe(no_mangle)]
pub extern "C" fn nanocore_run(
    machine: &mut [u8],
    input: &[u8],
    place: &mut usize,
    output: &mut [u8],
    written: &mut usize,
    values: &mut [usize; 2],
) -> usize
    ensures written_after { moved result values.new machine.new place.new output.new written.new
        ≡ run_from machine.old input.now place.old output.old written.old values.old }
    ensures machine_after { is_record machine.old ≡ true → is_record machine.new ≡ true }
{
    run(machine, input, place, output, written, values)
}

#[unsafe(no_mangle)]
pub extern "C" fn nanocore_transfer(machine: &mut [u8], image: &[u8], marks: &[u8]) -> usize
    ensures machine_after { kept result machine.new
        ≡ transfer_from machine.old image.now marks.now }
    ensures machine_after_2 { is_record machine.old ≡ true → is_record machine.new ≡ true }
{
    transfer(machine, image, marks)
}
