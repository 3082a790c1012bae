// Hexadecimal digits: the value of one, in either case, and the two of a byte, in upper case.
ghost use Rattle.std.specs.Prelude.{◌<◌, ◌≡◌, MatchOption};
ghost use Rattle.digits.specs.Digit.{digit_of, pair_of, upper_of};

// The value of a digit in either case.
#[tactic(auto, unfolding(crate::specs::Digit::digit_of))]
pub fn digit(c: u8) -> Option<u8>
    ensures { MatchOption result (digit_of c ≡ 16) (λ d. (d < 16) × (d ≡ digit_of c)) }
{
    match c {
        b'0'..=b'9' => Some(c - b'0'),
        b'A'..=b'F' => Some(c - b'A' + 10),
        b'a'..=b'f' => Some(c - b'a' + 10),
        _ => None,
    }
}

// The two digits of a byte.
pub fn pair(byte: u8) -> [u8; 2]
    ensures { result ≡ pair_of byte }
{
    [upper(byte / 16), upper(byte % 16)]
}

fn upper(value: u8) -> u8
    requires { value < 16 }
    ensures { result ≡ upper_of value }
{
    if value < 10 {
        b'0' + value
    } else {
        b'A' + (value - 10)
    }
}
