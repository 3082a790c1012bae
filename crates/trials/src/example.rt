// A rule that is run, what it was to print, and whether lent steps take it to the same end.
ghost use Rattle.files.specs.Counts.{IsPrefixLen};

use crate::lent;
use program::input::argument;
use program::print;
use rule::rule::run_rule;
use std::rt::{Env, Files, Stdout};

// The limit of a fresh machine.
const LIMIT: u16 = 1024;

// The numbers of the arguments that name the files of a rule, of its input and of what it is to print.
#[derive(Clone, Copy)]
pub struct Example {
    pub rule: usize,
    pub input: usize,
    pub output: usize,
}

impl Example {
    pub fn run<R: Env + Files>(self, rt: &R, out: Stdout) {
        let mut rule = [0u8; 65536];
        let mut input = [0u8; 65536];
        let mut output = [0u8; 65536];
        let rule_length = read_argument(rt, out, self.rule, &mut rule);
        let input_length = read_argument(rt, out, self.input, &mut input);
        let output_length = read_argument(rt, out, self.output, &mut output);
        self.tell(
            rt,
            out,
            &rule[..rule_length],
            &input[..input_length],
            &output[..output_length],
        );
    }

    fn tell<R: Env>(self, rt: &R, out: Stdout, rule: &[u8], input: &[u8], output: &[u8]) {
        let mut printed = [0u8; 65536];
        let ending = run_rule(rule, LIMIT, input, &mut printed);
        let written = ending.written;
        let as_wanted = if &printed[..written] == output {
            " as "
        } else {
            ", not as "
        };
        print::argument(rt, out, self.rule);
        let _ = print!(out; " printed {written}{as_wanted}");
        print::argument(rt, out, self.output);
        let _ = println!(out; " has");
        print::text(out, ending.verdict.as_bytes());
        lent::compare(out, rule, LIMIT, input);
    }
}

// How much of the file could be read. Where a read failed, it was said.
fn read_argument<R: Env + Files>(rt: &R, out: Stdout, i: usize, buffer: &mut [u8]) -> usize
    ensures { IsPrefixLen result buffer.new }
{
    match argument(rt, i, buffer) {
        Ok(count) => count,
        Err(cut) => {
            print::argument(rt, out, i);
            let _ = println!(out; " could not be read");
            cut.count
        }
    }
}
