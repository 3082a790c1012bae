// An image and its marks, which the host keeps, from Intel HEX.
ghost use Rattle.std.specs.Prelude.{◌≡◌};
ghost use Rattle.answer_number.specs.Numbered.{numbered};
ghost use Rattle.hexread.specs.Numbers.{read_number, refusal_number};
ghost use Rattle.host_hex.specs.Hex.{read_from, taken};

use answer_number::{Numbered, with_value};
use hexread::answer::Refusal;

pub fn read(text: &[u8], image: &mut [u8], marks: &mut [u8], values: &mut [usize; 2]) -> usize
    ensures { taken result values.new image.new marks.new
        ≡ read_from text.now image.old marks.old }
{
    let number = read_number(hexread::read::read(text, image, marks));
    *values = [number.first, number.second];
    number.number
}

fn read_number(answer: Result<(), Refusal>) -> Numbered
    ensures { result ≡ numbered (read_number answer) }
{
    match answer {
        Ok(()) => with_value(0, 0),
        Err(refusal) => refusal_number(refusal),
    }
}

fn refusal_number(refusal: Refusal) -> Numbered
    ensures { result ≡ numbered (refusal_number refusal) }
{
    match refusal {
        Refusal::NoImage => with_value(19, 0),
        Refusal::Shape(line) => with_value(20, line),
        Refusal::Checksum(line) => with_value(21, line),
        Refusal::OtherType(line) => with_value(22, line),
        Refusal::PastEnd(line) => with_value(23, line),
        Refusal::SetTwice(line) => with_value(24, line),
        Refusal::NoEnd => with_value(25, 0),
        Refusal::TextAfter => with_value(26, 0),
    }
}
