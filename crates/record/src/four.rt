// Numbers of four bytes, the lowest first.
ghost use Rattle.std.specs.Prelude.{◌≡◌};
ghost use Rattle.record.specs.Four.{four, four_at};

use fields::read::stretch;

pub fn four(n: u32) -> [u8; 4]
    ensures { result ≡ four n }
{
    n.to_le_bytes()
}

// A place in the first part of a record.
pub fn four_at(bytes: &[u8], at: u8) -> u32
    ensures { result ≡ four_at bytes.now at }
{
    u32::from_le_bytes(stretch(bytes, usize::from(at)))
}
