// Two bytes in, the low byte of the exact result out, with whether that result lies outside 0..255.
ghost use Rattle.std.specs.Prelude.{◌≡◌};
ghost use Rattle.byte.specs.Arithmetic.{
  sum_of,
  difference_of,
  product_of,
  quotient_of,
  remainder_of,
  wrapped_sub,
};

use crate::Carried;

pub fn overflowing_add(a: u8, b: u8) -> Carried
    ensures { result ≡ sum_of a b }
{
    let (value, carry) = a.overflowing_add(b);
    Carried { value, carry }
}

// The difference modulo 256, in the form that the stack steps and the arithmetic cite.
pub fn wrapping_sub(a: u8, b: u8) -> u8
    ensures { result ≡ wrapped_sub a b }
{
    a.wrapping_sub(b)
}

pub fn overflowing_sub(a: u8, b: u8) -> Carried
    ensures { result ≡ difference_of a b }
{
    Carried {
        value: wrapping_sub(a, b),
        carry: a < b,
    }
}

// By the exact product: where the library's method looks for a carry, it divides.
pub fn overflowing_mul(a: u8, b: u8) -> Carried
    ensures { result ≡ product_of a b }
{
    let exact = u16::from(a) * u16::from(b);
    Carried {
        value: (exact % 256) as u8,
        carry: 255 < exact,
    }
}

// A divisor of 0 is refused before it comes here; the quotient is then 0, as in the definition.
pub fn overflowing_div(a: u8, b: u8) -> Carried
    ensures { result ≡ quotient_of a b }
{
    Carried {
        value: a.checked_div(b).unwrap_or(0),
        carry: false,
    }
}

// A divisor of 0 is refused before it comes here; the remainder is then the byte, as in the definition.
pub fn overflowing_rem(a: u8, b: u8) -> Carried
    ensures { result ≡ remainder_of a b }
{
    Carried {
        value: a.checked_rem(b).unwrap_or(a),
        carry: false,
    }
}
