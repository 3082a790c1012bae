// The labels of a source.
ghost use Rattle.std.specs.Prelude.{◌≡◌};
ghost use Rattle.answer_number.specs.Numbered.{numbered};
ghost use Rattle.labels.specs.Numbers.{refusal_number};
ghost use Rattle.host_text.specs.Text.{map_from, mapped};

use answer_number::{Numbered, with_value};
use labels::pass::{Refusal, map_labels};
use table::labels::Labels;

// The labels in the order of their first appearance: of each the place and the length of its name in the source, and its address.
pub fn labels(
    source: &[u8],
    count: &mut usize,
    places: &mut [u16; 64],
    lengths: &mut [u16; 64],
    addresses: &mut [u8; 64],
    values: &mut [usize; 2],
) -> usize
    ensures { mapped result values.new count.new places.new lengths.new addresses.new
        ≡ map_from source.now }
{
    let (labels, number) = match map_labels(source) {
        Ok(labels) => (labels, with_value(0, 0)),
        Err(refusal) => (Labels::empty(), refusal_number(refusal)),
    };
    *count = labels.count;
    places.copy_from_slice(&labels.places);
    lengths.copy_from_slice(&labels.lengths);
    addresses.copy_from_slice(&labels.addresses);
    *values = [number.first, number.second];
    number.number
}

fn refusal_number(refusal: Refusal) -> Numbered
    ensures { result ≡ numbered (refusal_number refusal) }
{
    match refusal {
        Refusal::NoSource => with_value(15, 0),
        Refusal::ShortString(line) => with_value(16, line),
        Refusal::NoOperation(line) => with_value(17, line),
        Refusal::TooManyLabels(line) => with_value(18, line),
    }
}
