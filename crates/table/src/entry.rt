// Entries of the table: found by name, given another address, added.
ghost use Rattle.std.specs.Prelude.{◌<◌, ◌≤◌, ◌&&◌, ◌≡◌, eqb, IfSome};
ghost use Rattle.table.specs.Table.{alike, found, readdressed, with_label};

use crate::labels::Labels;
use fields::read::byte_at;

// The number of the first entry that has the name at this place.
pub fn found(labels: Labels, source: &[u8], place: u16, length: u16) -> Option<usize>
    requires { labels.count ≤ 64 }
    ensures value { result ≡ found source.now labels place length }
    ensures upper_bound { IfSome result (λ i. i < labels.count) }
{
    labels.places[..labels.count]
        .iter()
        .zip(&labels.lengths[..labels.count])
        .position(|(&from, &size)| same_name(source, from, size, place, length))
}

// A repeated label takes the later address.
pub fn readdress(mut labels: Labels, i: usize, address: u8) -> Labels
    requires { i < 64 }
    ensures { result ≡ readdressed labels i address }
{
    labels.addresses[i] = address;
    labels
}

// A new label, behind the others.
pub fn add(mut labels: Labels, place: u16, length: u16, address: u8) -> Labels
    requires { labels.count < 64 }
    ensures { result ≡ with_label labels place length address }
{
    let n = labels.count;
    labels.places[n] = place;
    labels.lengths[n] = length;
    labels.addresses[n] = address;
    labels.count = n + 1;
    labels
}

// Whether two stretches of the source, each a place and a length, are one name.
fn same_name(source: &[u8], a: u16, n: u16, b: u16, m: u16) -> bool
    ensures { result ≡ (eqb n m && alike source.now a b m) }
{
    let first = usize::from(a);
    let second = usize::from(b);
    n == m && (0..usize::from(m)).all(|i| byte_at(source, first + i) == byte_at(source, second + i))
}
