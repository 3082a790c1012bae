// Each of the three places takes what an effect writes there, and keeps the rest.
ghost use Rattle.std.specs.Prelude.{◌≡◌, ◌<◌, true, length};
ghost use Rattle.effect.specs.Effects.{prints};
ghost use Rattle.nanocore.specs.Step.{registers_after, memory_after, output_after, written_after};

use effect::Write;

// A register above 15 is none: no instruction names one.
pub fn write_register(write: Write, registers: &mut [u8; 16])
    ensures { registers.new ≡ registers_after write registers.old }
{
    if let Write::Register(r, v) = write
        && r < 16
    {
        registers[usize::from(r)] = v;
    }
}

pub fn write_memory(write: Write, memory: &mut [u8; 256])
    ensures { memory.new ≡ memory_after write memory.old }
{
    if let Write::Memory(a, v) = write {
        memory[usize::from(a)] = v;
    }
}

// PRINT was refused where no room is left.
pub fn write_output(write: Write, output: &mut [u8], written: usize) -> usize
    requires { prints write ≡ true → written < length output.old }
    ensures { (result ≡ written_after write written) × (output.new ≡ output_after write written output.old) }
{
    if let Write::Output(v) = write {
        output[written] = v;
        written + 1
    } else {
        written
    }
}
