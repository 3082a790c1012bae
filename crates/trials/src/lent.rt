// A rule taken twice from where it was loaded: run by value, and one lent step after the other.
use answers::answer::{Answer, of};
use answers::number::run_number;
use nanocore::answer::{Outcome, RunAnswer};
use nanocore::machine::Machine;
use rule::rule::load_rule;
use std::rt::Stdout;
use trace::run::run_by_looks;

// A rule that is too long takes no step.
pub fn compare(out: Stdout, rule: &[u8], limit: u16, input: &[u8]) {
    let loaded = load_rule(rule, limit);
    let told = match loaded.answer {
        Ok(()) if are_alike(loaded.machine, input) => "lent steps as the run",
        Ok(()) => "lent steps differ from the run",
        Err(_) => "no lent step",
    };
    let _ = println!(out; "{told}");
}

// Whether the two have one answer, machine, place and output.
fn are_alike(machine: Machine, input: &[u8]) -> bool {
    let mut printed = [0u8; 65536];
    let ran = all(machine.run(input, 0, &mut printed, 0));
    let mut lent = [0u8; 65536];
    let stepped = all(run_by_looks(machine, input, 0, &mut lent, 0));
    ran == stepped && printed == lent
}

// The answer, every number, register and memory byte of the machine, the place and the number of bytes written.
fn all(outcome: Outcome<RunAnswer>) -> Answer {
    of(
        run_number(outcome.answer),
        outcome.machine,
        outcome.place,
        outcome.written,
    )
}
