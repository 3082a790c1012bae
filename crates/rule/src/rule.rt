// A rule with the station's bytes: loaded at 0 into a fresh machine and run.
ghost use Rattle.std.specs.Prelude.{◌≡◌, ◌≤◌, length};
ghost use Rattle.nanocore.specs.Numbers.{loading};
ghost use Rattle.rule.specs.Rule.{ending, ran_from, rule_loaded, rule_of};

use crate::verdict::{too_long, verdict};
use nanocore::answer::{Handed, LoadAnswer};
use nanocore::machine::Machine;
use text::line::Line;

// The verdict, and how many of the output's bytes the rule printed.
#[derive(Clone, Copy)]
pub struct Ending {
    pub verdict: Line,
    pub written: usize,
}

// A fresh machine that has the limit, with the rule loaded at 0.
pub fn load_rule(rule: &[u8], limit: u16) -> Handed<LoadAnswer>
    ensures { loading result ≡ rule_loaded rule.now limit }
{
    let mut machine = Machine::fresh();
    machine.limit = limit;
    machine.load(rule, 0)
}

#[tactic(auto, unfolding(crate::specs::Rule::rule_of))]
pub fn run_rule(rule: &[u8], limit: u16, input: &[u8], output: &mut [u8]) -> Ending
    ensures value { ending result output.new ≡ rule_of rule.now limit input.now output.old }
    ensures bound { result.written ≤ length output.new }
{
    let loaded = load_rule(rule, limit);
    match loaded.answer {
        Ok(()) => run_loaded(loaded.machine, input, output),
        Err(refused) => Ending {
            verdict: too_long(refused.length, refused.start),
            written: 0,
        },
    }
}

#[tactic(auto, using(crate::proofs::PrintedLaws::printed_within))]
fn run_loaded(machine: Machine, input: &[u8], output: &mut [u8]) -> Ending
    ensures value { ending result output.new ≡ ran_from machine input.now output.old }
    ensures bound { result.written ≤ length output.new }
{
    let ran = machine.run(input, 0, output, 0);
    let after = ran.machine;
    Ending {
        verdict: verdict(ran.answer, after.count, after.pc),
        written: ran.written,
    }
}
