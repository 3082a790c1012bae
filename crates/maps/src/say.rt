// What maps prints. Whether it was written is not asked: what is missing differs from what the gate expects.
use labels::pass::Refusal;
use labels::verdict::verdict;
use program::print::text;
use std::rt::Stdout;
use table::labels::Labels;

pub fn unread(out: Stdout, i: usize) {
    let _ = println!(out; "not read: argument {i}");
}

pub fn mapped(out: Stdout, answer: Result<Labels, Refusal>) {
    match answer {
        Ok(labels) => print(out, &labels),
        Err(refusal) => text(out, verdict(refusal).as_bytes()),
    }
}

fn print(out: Stdout, labels: &Labels) {
    text(out, b"mapped");
    let names = labels.places.iter().zip(&labels.lengths);
    let entries = names.zip(&labels.addresses).take(labels.count);
    for ((place, length), address) in entries {
        let _ = print!(out; " {place} {length} {address}");
    }
    text(out, b"\n");
}
