// Digits read, two a byte.
ghost use Rattle.std.specs.Prelude.{◌≡◌, ◌≤◌, length};
ghost use Rattle.hexline.specs.Code.{spelling};
ghost use Rattle.hexline.specs.Spelling.{spelled};

use crate::spelled::Spelled;
use digits::digit::digit;

// The bytes, where the text is spelled whole.
pub fn spell(text: &[u8]) -> Option<Spelled>
    requires { length text.now ≤ 520 }
    ensures { spelling result ≡ spelled text.now }
{
    let mut bytes = [0; 260];
    let mut count = 0;
    let mut rest = text;
    while let [high, low, behind @ ..] = rest {
        bytes[count] = digit(*high)? * 16 + digit(*low)?;
        count += 1;
        rest = behind;
    }
    if rest.is_empty() {
        Some(Spelled { bytes, count })
    } else {
        None
    }
}
