// trials [RULE INPUT OUTPUT]..: prints the verdicts of many endings, then runs each rule with its input and says whether it prints what its output
// has, its verdict, and whether lent steps leave machine, answer, place and output as the run does. The gate runs it on the examples.
#![tactic(auto)]

mod endings;
mod example;
mod lent;

use example::Example;
use program::input::has_argument;

fn main(rt: HostRuntime) {
    endings::print(rt.stdout());
    for i in 0..usize::MAX / 3 {
        let example = Example {
            rule: 3 * i + 1,
            input: 3 * i + 2,
            output: 3 * i + 3,
        };
        if !has_argument(&rt, example.output) {
            return;
        }
        example.run(&rt, rt.stdout());
    }
}
