// nanolabels: maps the labels of the source that standard input holds. Standard output gets a line for each, its name and its address, or one line with the
// refusal, which standard error then has in words.
#![tactic(auto)]

ghost use Rattle.std.specs.Prelude.{◌≤◌};
ghost use Rattle.labels.specs.Inside.{Inside};

mod say;

use labels::pass::map_labels;
use program::input::standard_input;
use program::say::Streams;
use table::labels::Labels;

// The buffer holds far more than a source may have, so what does not fit is refused, whatever follows.
fn main(rt: HostRuntime) {
    let to = Streams::new(&rt, b"nanolabels");
    let mut source = [0u8; 65536];
    if let Ok(count) = standard_input(rt.stdin(), to.voice, &mut source) {
        map(to, &source[..count]);
    }
}

fn map(to: Streams, source: &[u8]) {
    match map_labels(source) {
        Ok(labels) => print(to, source, labels),
        Err(refusal) => say::refused(to, refusal),
    }
}

// Each name is a stretch of the source. It stops where a line could not be written, which is said once.
#[tactic(auto, unfolding(labels::specs::Inside::Inside))]
fn print(to: Streams, source: &[u8], labels: Labels)
    requires count_bound { labels.count ≤ 64 }
    requires inside { Inside source.now labels }
{
    for i in 0..labels.count {
        let from = usize::from(labels.places[i]);
        let end = from + usize::from(labels.lengths[i]);
        if !say::label(to, &source[from..end], labels.addresses[i]) {
            return;
        }
    }
}
