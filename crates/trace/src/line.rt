// The line that shows a machine between two steps.
ghost use Rattle.std.specs.Prelude.{◌≡◌};
ghost use Rattle.text.specs.Lines.{lined};
ghost use Rattle.trace.specs.State.{state_line};

use nanocore::machine::Machine;
use text::line::Line;

#[tactic(auto, using(text::proofs::LineLaws::appended_twice), unfolding(crate::specs::State::state_line))]
pub fn line(machine: Machine) -> Line
    ensures { result ≡ lined (state_line machine) }
{
    Line::empty()
        .text(b"pc ")
        .decimal(usize::from(machine.pc))
        .named(b"sp", usize::from(machine.sp))
        .named(b"flags", usize::from(machine.flags))
        .named(b"count", usize::from(machine.count))
        .text(b"\n")
}
