// What this build knows: what a host asks before it trusts an answer.
ghost use Rattle.std.specs.Prelude.{◌≡◌};
ghost use Rattle.host_instruction.specs.Known.{known_below};

// How many of the 256 opcode bytes this build knows. A build that does not know one of them answers less.
pub fn operations() -> usize
    ensures { result ≡ known_below 256 }
{
    40
}
