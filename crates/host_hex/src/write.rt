// An image and its marks, which the host keeps, as Intel HEX.
ghost use Rattle.std.specs.Prelude.{◌≡◌};
ghost use Rattle.answer_number.specs.Numbered.{numbered};
ghost use Rattle.answer_number.specs.Texted.{texted};
ghost use Rattle.hexwrite.specs.Numbers.{write_number};
ghost use Rattle.host_hex.specs.Hex.{write_from};

use answer_number::{Numbered, with_value};
use hexwrite::write::WriteRefusal;

pub fn write(image: &[u8], marks: &[u8], text: &mut [u8], values: &mut [usize; 2]) -> usize
    ensures { texted result values.new text.new
        ≡ write_from image.now marks.now text.old }
{
    let wrote = write_number(hexwrite::write::write(image, marks, text));
    *values = [wrote.first, wrote.second];
    wrote.number
}

fn write_number(answer: Result<usize, WriteRefusal>) -> Numbered
    ensures { result ≡ numbered (write_number answer) }
{
    match answer {
        Ok(length) => with_value(0, length),
        Err(WriteRefusal::NoImage) => with_value(19, 0),
        Err(WriteRefusal::NoRoom(needed)) => with_value(14, needed),
    }
}
