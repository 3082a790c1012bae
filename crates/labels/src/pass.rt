// The address pass over a source: its lines, one after the other.
ghost use Rattle.std.specs.Prelude.{◌≡◌, ◌≤◌, length, IfOk};
ghost use Rattle.labels.specs.Numbers.{mapping};
ghost use Rattle.labels.specs.Pass.{ended, mapping_of, passed};

use crate::stand::{RawLine, Stand};
use scan::class::Class;
use scan::scan::some;
use table::labels::Labels;

// A longer source is refused.
const MOST: usize = 16384;

// Why a source has no labels. All but the first come with the line.
#[derive(Clone, Copy, PartialEq, Eq, Debug)]
pub enum Refusal {
    NoSource,
    ShortString(usize),
    NoOperation(usize),
    TooManyLabels(usize),
}

#[tactic(auto, unfolding(crate::specs::Pass::mapping_of))]
pub fn map_labels(source: &[u8]) -> Result<Labels, Refusal>
    ensures result_value { mapping result ≡ mapping_of source.now }
    ensures count_bound { IfOk result (λ labels. labels.count ≤ 64) }
{
    if source.len() > MOST || some(Class::High, source) {
        return Err(Refusal::NoSource);
    }
    over_lines(source)
}

fn over_lines(source: &[u8]) -> Result<Labels, Refusal>
    requires { length source.now ≤ 16384 }
    ensures result_value { mapping result ≡ ended (passed source.now) }
    ensures count_bound { IfOk result (λ labels. labels.count ≤ 64) }
{
    let mut stand = Stand::start();
    let mut place = 0;
    for (i, bytes) in source.split(|byte| *byte == b'\n').enumerate() {
        let raw = RawLine {
            source,
            place,
            number: i + 1,
            bytes,
        };
        stand.after(&raw)?;
        place += bytes.len() + 1;
    }
    Ok(stand.labels)
}
