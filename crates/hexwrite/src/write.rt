// The records of an image, into a lent buffer.
ghost use Rattle.std.specs.Prelude.{◌≡◌, ◌≤◌, ◌++◌, IfOk, length, drop};
ghost use Rattle.fields.specs.Written.{told};
ghost use Rattle.hexwrite.specs.Numbers.{write_number};
ghost use Rattle.hexwrite.specs.Writer.{text_of, writing_of};

use crate::runs::Runs;
use fields::lay::lay;
use hexline::line::{data_line, end_line};

// Why there is no text: image or marks not 256 long, or no room for so many bytes.
#[derive(Clone, Copy, PartialEq, Eq, Debug)]
pub enum WriteRefusal {
    NoImage,
    NoRoom(usize),
}

// The length of the text. It is measured before it is written, so that a buffer without room stays as it was.
#[tactic(auto, unfolding(crate::specs::Writer::writing_of))]
pub fn write(image: &[u8], marks: &[u8], buffer: &mut [u8]) -> Result<usize, WriteRefusal>
    ensures value { told (write_number result) buffer.new ≡ writing_of image.now marks.now buffer.old }
    ensures bound { IfOk result (λ n. n ≤ length buffer.new) }
{
    let image = image.as_array().ok_or(WriteRefusal::NoImage)?;
    let marks = marks.as_array().ok_or(WriteRefusal::NoImage)?;
    let needed = measure(image, marks);
    if buffer.len() < needed {
        return Err(WriteRefusal::NoRoom(needed));
    }
    write_records(image, marks, buffer);
    Ok(needed)
}

// How long the text is: a record has twelve bytes beside two digits for each of its data, and the last one has none.
fn measure(image: &[u8; 256], marks: &[u8; 256]) -> usize
    ensures { result ≡ length (text_of image.now marks.now) }
{
    let mut needed = 12;
    for run in Runs::of(marks) {
        needed += 12 + 2 * run.count;
    }
    needed
}

// Behind the text the buffer stays as it was.
fn write_records(image: &[u8; 256], marks: &[u8; 256], buffer: &mut [u8])
    requires { length (text_of image.now marks.now) ≤ length buffer.old }
    ensures { buffer.new ≡ text_of image.now marks.now ++ drop (length (text_of image.now marks.now)) buffer.old }
{
    let mut place = 0;
    for run in Runs::of(marks) {
        let end = run.address + run.count;
        let line = data_line(run.address as u8, &image[run.address..end]);
        lay(buffer, place, line.as_bytes());
        place += line.length;
    }
    lay(buffer, place, end_line().as_bytes());
}
