// Digits to bytes: two hexadecimal digits to a byte, blanks and bars between bytes.
ghost use Rattle.std.specs.Prelude.{◌≡◌};
ghost use Rattle.digits.specs.Unhex.{parts, unhexed, told};

use crate::digit::digit;

// At this place of the text stands something that is no byte, or one for which there is no room.
#[derive(Clone, Copy, PartialEq, Eq, Debug)]
pub struct Stopped {
    pub at: usize,
}

// How many bytes there are; they stand at the start of the buffer.
#[tactic(auto, using(crate::proofs::UnhexLaws::reading_laws))]
pub fn unhex(text: &[u8], buffer: &mut [u8]) -> Result<usize, Stopped>
    ensures { told result buffer.new ≡ unhexed text.now buffer.old }
{
    let mut high = None;
    let mut count = 0;
    for (at, c) in text.iter().enumerate() {
        match (high, digit(*c)) {
            (Some(first), Some(second)) if count < buffer.len() => {
                buffer[count] = first * 16 + second;
                count += 1;
                high = None;
            }
            (None, Some(first)) => high = Some(first),
            (None, None) if parts(*c) => {}
            _ => return Err(Stopped { at }),
        }
    }
    match high {
        None => Ok(count),
        Some(_) => Err(Stopped { at: text.len() }),
    }
}

// What may stand between bytes.
#[tactic(auto, unfolding(crate::specs::Unhex::parts))]
fn parts(c: u8) -> bool
    ensures { result ≡ parts c }
{
    c == b' ' || c == b'|'
}
