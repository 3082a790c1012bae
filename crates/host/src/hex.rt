// An image and its marks, which the host keeps, from Intel HEX and as Intel HEX.
ghost use Rattle.std.specs.Prelude.{◌≡◌};
ghost use Rattle.answer_number.specs.Texted.{texted};
ghost use Rattle.host_hex.specs.Hex.{read_from, taken, write_from};

use host_hex::read::read;
use host_hex::write::write;

#[unsafe(no_mangle)]
pub extern "C" fn nanocore_read_hex(
    text: &[u8],
    image: &mut [u8],
    marks: &mut [u8],
    values: &mut [usize; 2],
) -> usize
    ensures { taken result values.new image.new marks.new
        ≡ read_from text.now image.old marks.old }
{
    read(text, image, marks, values)
}

#[unsafe(no_mangle)]
pub extern "C" fn nanocore_write_hex(
    image: &[u8],
    marks: &[u8],
    text: &mut [u8],
    values: &mut [usize; 2],
) -> usize
    ensures { texted result values.new text.new
        ≡ write_from image.now marks.now text.old }
{
    write(image, marks, text, values)
}
