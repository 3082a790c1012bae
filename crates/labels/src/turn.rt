// What one line does: it moves the address on, gives it a name, or is refused.
ghost use Rattle.std.specs.Prelude.{◌≡◌, ◌+◌, ◌%◌, ◌≤◌, IfErr};
ghost use Rattle.table.specs.Table.{no_labels};
ghost use Rattle.labels.specs.Numbers.{progress};
ghost use Rattle.labels.specs.Pass.{labelled, turn};

use crate::pass::Refusal;
use crate::stand::{RawLine, Stand};
use scan::class::Class;
use scan::scan::last;
use source::line::line;
use source::meaning::{Meaning, Unread};
use table::entry::{add, found, readdress};
use table::labels::Labels;

impl Stand {
    pub fn start() -> Stand
        ensures address_value { result.address ≡ 0 }
        ensures labels_value { result.labels ≡ no_labels }
    {
        Stand {
            address: 0,
            labels: Labels::empty(),
        }
    }

    #[tactic(auto, unfolding(crate::specs::Pass::turn))]
    pub fn after(&mut self, raw: &RawLine) -> Result<(), Refusal>
        ensures value { progress result self.new
            ≡ turn raw.now.source.now raw.now.place raw.now.number self.old.address self.old.labels raw.now.bytes.now }
        ensures self_unchanged { IfErr result (λ _. self.new ≡ self.old) }
    {
        let span = line(raw.bytes);
        let text = &raw.bytes[span.from..span.to];
        match Meaning::of(text) {
            Ok(Meaning::Nothing) => Ok(()),
            Ok(Meaning::Bytes(n)) => {
                self.address = moved(self.address, n);
                Ok(())
            },
            Ok(Meaning::Label) => {
                let size = last(Class::IsNot(b':'), text);
                self.labelled(raw, raw.place + span.from, size)
            },
            Err(Unread::ShortString) => Err(Refusal::ShortString(raw.number)),
            Err(Unread::NoOperation) => Err(Refusal::NoOperation(raw.number)),
        }
    }

    // The name that stands at a place in the source gets the address.
    #[tactic(auto, unfolding(crate::specs::Pass::labelled))]
    fn labelled(&mut self, raw: &RawLine, place: usize, size: usize) -> Result<(), Refusal>
        requires place_bound { place ≤ 16384 }
        requires size_bound { size ≤ 16384 }
        ensures value { progress result self.new
            ≡ labelled raw.now.source.now self.old.labels place size raw.now.number self.old.address }
        ensures self_unchanged { IfErr result (λ _. self.new ≡ self.old) }
    {
        let place = place as u16;
        let size = size as u16;
        match found(self.labels, raw.source, place, size) {
            Some(i) => self.labels = readdress(self.labels, i, self.address),
            None if self.labels.count < 64 => {
                self.labels = add(self.labels, place, size, self.address);
            },
            None => return Err(Refusal::TooManyLabels(raw.number)),
        }
        Ok(())
    }
}

// Addresses wrap modulo 256.
fn moved(address: u8, bytes: usize) -> u8
    ensures { result ≡ (address + bytes) % 256 }
{
    address.wrapping_add((bytes % 256) as u8)
}
