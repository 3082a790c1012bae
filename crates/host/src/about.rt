// What this build is: what a host asks before it trusts an answer.
ghost use Rattle.std.specs.Prelude.{◌≡◌};
ghost use Rattle.record.specs.Record.{layout};
ghost use Rattle.host_instruction.specs.Known.{known_below};

use host_instruction::operations::operations;
use host_machine::version::version;

// The version of the record's layout: the first byte of every record.
#[unsafe(no_mangle)]
pub extern "C" fn nanocore_version() -> usize
    ensures { result ≡ layout }
{
    version()
}

// How many of the 256 opcode bytes this build knows. A build that does not know one of them answers less.
#[unsafe(no_mangle)]
pub extern "C" fn nanocore_operations() -> usize
    ensures { result ≡ known_below 256 }
{
    operations()
}
