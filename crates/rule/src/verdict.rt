// The verdict: the line that says how a rule ended.
#![tactic(auto, using(text::proofs::LineLaws::appended_twice), unfolding(crate::specs::Verdict::verdict_of, crate::specs::Verdict::too_long))]

ghost use Rattle.std.specs.Prelude.{◌≡◌};
ghost use Rattle.effect.specs.Numbers.{fault_number};
ghost use Rattle.nanocore.specs.Numbers.{run_number};
ghost use Rattle.text.specs.Lines.{lined};
ghost use Rattle.rule.specs.Verdict.{refusal, said, too_long, verdict_of};

use effect::Fault;
use nanocore::answer::{RunAnswer, RunRefusal};
use text::line::Line;

// How a run ended, and the count and the pc that its machine was left with.
pub fn verdict(answer: RunAnswer, count: u16, pc: u8) -> Line
    ensures { result ≡ lined (verdict_of (run_number answer) count pc) }
{
    said(answer)
        .named(b"count", usize::from(count))
        .named(b"pc", usize::from(pc))
        .text(b"\n")
}

// A rule that is too long to be loaded: nothing ran.
pub fn too_long(length: usize, start: u8) -> Line
    ensures { result ≡ lined (too_long length start) }
{
    refused(11)
        .named(b"length", length)
        .named(b"start", usize::from(start))
        .text(b"\n")
}

fn said(answer: RunAnswer) -> Line
    ensures { result ≡ lined (said (run_number answer)) }
{
    match answer {
        Ok(()) => Line::empty().text(b"halted"),
        Err(RunRefusal::Fault(fault)) => faulted(fault),
        Err(RunRefusal::LimitReached(limit)) => refused(10).named(b"limit", usize::from(limit)),
    }
}

// The pc of an invalid opcode is the machine's, which every verdict ends in.
fn faulted(fault: Fault) -> Line
    ensures { result ≡ lined (said (fault_number fault)) }
{
    match fault {
        Fault::InvalidOpcode { opcode, .. } => refused(3).named(b"opcode", usize::from(opcode)),
        Fault::StackFull(sp) => refused(4).named(b"sp", usize::from(sp)),
        Fault::StackEmpty(sp) => refused(5).named(b"sp", usize::from(sp)),
        Fault::DivisorZero(opcode) => refused(6).named(b"opcode", usize::from(opcode)),
        Fault::NoInput => refused(7),
        Fault::NoRoom => refused(8),
    }
}

fn refused(number: usize) -> Line
    ensures { result ≡ lined (refusal number) }
{
    Line::empty().text(b"refused ").decimal(number)
}
