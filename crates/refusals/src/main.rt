// refusals: refuses numbers of one digit to twenty, in words shown as text and in words that need not be text.
// The gate runs it.
#![tactic(auto)]

use program::say::Streams;

fn main(rt: HostRuntime) {
    let to = Streams::new(&rt, b"refusals");
    for number in [0, 11, 256, usize::MAX] {
        to.refused(number, format_args!("{number} as text"));
        to.refused_why(number, b"bytes \xff that are no text");
    }
}
