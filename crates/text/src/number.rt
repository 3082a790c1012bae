// A number from its digits.
ghost use Rattle.std.specs.Prelude.{◌≡◌};
ghost use Rattle.text.specs.Decimal.{numeral, value_from};

// A number of 0 to 65,535 without leading zeros.
#[tactic(auto, using(crate::proofs::NumberLaws::number_laws))]
pub fn number(text: &[u8]) -> Option<u16>
    ensures { result ≡ numeral text.now }
{
    match text {
        [] => None,
        [b'0', _, ..] => None,
        _ => value(text),
    }
}

// The number that the digits make.
#[tactic(auto, using(crate::proofs::NumberLaws::digit_laws))]
fn value(text: &[u8]) -> Option<u16>
    ensures { result ≡ value_from 0 text.now }
{
    let mut value: usize = 0;
    for c in text {
        if *c < b'0' || *c > b'9' {
            return None;
        }
        value = value * 10 + usize::from(*c - b'0');
        if value > 65535 {
            return None;
        }
    }
    Some(value as u16)
}
