// A byte moved by one bit, with the bit that left. A rotation brings that bit back in at the other end; neither passes through C.
ghost use Rattle.std.specs.Prelude.{◌≡◌};
ghost use Rattle.byte.specs.Shift.{
  shifted_left,
  shifted_right,
  rotated_left,
  rotated_right,
};

use crate::Carried;

pub fn shift_left(a: u8) -> Carried
    ensures { result ≡ shifted_left a }
{
    Carried {
        value: a << 1,
        carry: a / 128 == 1,
    }
}

pub fn shift_right(a: u8) -> Carried
    ensures { result ≡ shifted_right a }
{
    Carried {
        value: a >> 1,
        carry: a % 2 == 1,
    }
}

#[tactic(auto, using(crate::proofs::Rotated::left))]
pub fn rotate_left(a: u8) -> Carried
    ensures { result ≡ rotated_left a }
{
    Carried {
        value: a.rotate_left(1),
        carry: a / 128 == 1,
    }
}

#[tactic(auto, using(crate::proofs::Rotated::right))]
pub fn rotate_right(a: u8) -> Carried
    ensures { result ≡ rotated_right a }
{
    Carried {
        value: a.rotate_right(1),
        carry: a % 2 == 1,
    }
}
