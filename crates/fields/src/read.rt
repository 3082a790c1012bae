// Bytes and numbers at a place. Past the end there is 0: whether a case is whole is asked apart.
ghost use Rattle.std.specs.Prelude.{◌<◌, ◌≡◌};
ghost use Rattle.fields.specs.Read.{byte_at, value_at, word_at, stretch as bytes_from};

use crate::number::Number;

pub fn byte_at(bytes: &[u8], at: usize) -> u8
    ensures { result ≡ byte_at bytes.now at }
{
    bytes.get(at).copied().unwrap_or(0)
}

// The number that stands at a place.
pub fn number_at<T: Number>(numbers: &[T], at: usize) -> usize
    ensures { result ≡ value_at T.value T.nothing numbers.now at }
{
    match numbers.get(at) {
        Some(number) => number.value(),
        None => 0,
    }
}

// Four bytes, the highest first.
#[tactic(auto, using(crate::proofs::ReadLaws::word_laws))]
pub fn word_at(bytes: &[u8], at: usize) -> usize
    ensures value { result ≡ word_at bytes.now at }
    ensures upper_bound { result < 4294967296 }
{
    match bytes.get(at..) {
        Some([a, b, c, d, ..]) => u32::from_be_bytes([*a, *b, *c, *d]) as usize,
        _ => 0,
    }
}

// So many bytes from a place on: the registers of a machine, or its memory.
pub fn stretch<const N: usize>(bytes: &[u8], from: usize) -> [u8; N]
    ensures { result ≡ bytes_from bytes.now from N }
{
    let mut piece = [0; N];
    let rest = &bytes[from.min(bytes.len())..];
    let count = rest.len().min(N);
    piece[..count].copy_from_slice(&rest[..count]);
    piece
}
