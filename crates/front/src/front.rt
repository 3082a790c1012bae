// What the bytes of a program begin with. A line of the listing stands for it.
ghost use Rattle.std.specs.Prelude.{◌≡◌};
ghost use Rattle.front.specs.Front.{front_of, size_of};

use fields::read::byte_at;
use instruction::decode::{Instruction, decode};

// An instruction that is there whole, or one byte alone.
#[derive(Clone, Copy, PartialEq, Eq, Debug)]
pub enum Front {
    Whole(Instruction),
    Alone(u8),
}

impl Front {
    // Bytes past the end are read as 0, but belong to no instruction that is listed.
    pub fn of(bytes: &[u8]) -> Front
        ensures { result ≡ front_of bytes.now }
    {
        let first = byte_at(bytes, 0);
        match decode(first, byte_at(bytes, 1), byte_at(bytes, 2)) {
            Ok(found) if usize::from(found.op.instruction_len()) <= bytes.len() => {
                Front::Whole(found)
            },
            _ => Front::Alone(first),
        }
    }

    // How many bytes it has.
    pub fn size(self) -> usize
        ensures { result ≡ size_of self }
    {
        match self {
            Front::Whole(found) => usize::from(found.op.instruction_len()),
            Front::Alone(_) => 1,
        }
    }
}
