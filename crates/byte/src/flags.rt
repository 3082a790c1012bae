// The flags byte: Z is bit 0, C bit 1, N bit 2, Y bit 3. Nothing here but set_flag and clear_flag at a caller's own bits touches Y or bits 4..7.
ghost use Rattle.std.specs.Prelude.{◌≡◌};
ghost use Rattle.byte.specs.Flags.{
  set_flag,
  clear_flag,
  get_flag,
  put_flag,
  zn,
  with_carry,
};

pub const FLAG_Z: u8 = 1;

pub const FLAG_C: u8 = 2;

pub const FLAG_N: u8 = 4;

pub const FLAG_Y: u8 = 8;

pub fn set_flag(flags: u8, bit: u8) -> u8
    ensures { result ≡ set_flag flags bit }
{
    flags | bit
}

pub fn clear_flag(flags: u8, bit: u8) -> u8
    ensures { result ≡ clear_flag flags bit }
{
    flags & !bit
}

pub fn get_flag(flags: u8, bit: u8) -> bool
    ensures { result ≡ get_flag flags bit }
{
    (flags & bit) != 0
}

// Set where the test holds, cleared where it does not.
pub fn put_flag(flags: u8, bit: u8, on: bool) -> u8
    ensures { result ≡ put_flag flags bit on }
{
    if on {
        set_flag(flags, bit)
    } else {
        clear_flag(flags, bit)
    }
}

// Z from whether the byte is 0, N from its bit 7.
#[tactic(auto, unfolding(crate::specs::Flags::zn))]
pub fn update_zn_flags(flags: u8, res: u8) -> u8
    ensures { result ≡ zn flags res }
{
    let z = put_flag(flags, FLAG_Z, res == 0);
    put_flag(z, FLAG_N, res / 128 == 1)
}

#[tactic(auto, unfolding(crate::specs::Flags::with_carry))]
pub fn update_carry_flag(flags: u8, carry: bool) -> u8
    ensures { result ≡ with_carry flags carry }
{
    put_flag(flags, FLAG_C, carry)
}
