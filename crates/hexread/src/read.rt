// A text of Intel HEX, onto a lent image and its marks.
ghost use Rattle.std.specs.Prelude.{[], ◌≡◌, ◌≤◌, MatchOption, length};
ghost use Rattle.hexline.specs.Code.{misread_number};
ghost use Rattle.scan.specs.declared.class.Class.TheVariants.{Is};
ghost use Rattle.scan.specs.Scan.{first};
ghost use Rattle.hexread.specs.File.{IsFirstLine, lines_from, reading_of, sheet as as_sheet, told, turn};
ghost use Rattle.hexread.specs.Numbers.{in_line, outcome, progress, read_number, refusal_number};

use crate::answer::Refusal;
use crate::sheet::Sheet;
use hexline::record::{Misread, Record};
use scan::class::Class;
use scan::scan::first;

// After a line that is read: the next one, or the end.
#[derive(Clone, Copy, PartialEq, Eq, Debug)]
pub enum Turn {
    Goes,
    Ended,
}

// The lines are read onto a copy, so that a refused text leaves image and marks as they were.
#[tactic(auto, unfolding(crate::specs::File::reading_of))]
pub fn read(text: &[u8], image: &mut [u8], marks: &mut [u8]) -> Result<(), Refusal>
    ensures { told (read_number result) image.new marks.new
        ≡ reading_of text.now image.old marks.old }
{
    if image.len() != 256 || marks.len() != 256 {
        return Err(Refusal::NoImage);
    }
    let mut sheet = Sheet {
        image: [0; 256],
        marks: [0; 256],
    };
    sheet.image.copy_from_slice(image);
    read_lines(text, &mut sheet)?;
    image.copy_from_slice(&sheet.image);
    marks.copy_from_slice(&sheet.marks);
    Ok(())
}

// Up to the end record. Where it refuses, what it has filled by then stays.
fn read_lines(text: &[u8], sheet: &mut Sheet) -> Result<(), Refusal>
    ensures { outcome result sheet.new.image sheet.new.marks
        ≡ lines_from 1 [] (as_sheet sheet.old.image sheet.old.marks) text.now }
{
    let mut number: usize = 1;
    let mut rest = text;
    while !rest.is_empty() {
        let Some((line, behind)) = first_line(rest) else {
            return Err(Refusal::Shape(number));
        };
        match read_line(line, number, sheet)? {
            Turn::Goes => {},
            Turn::Ended if behind.is_empty() => return Ok(()),
            Turn::Ended => return Err(Refusal::TextAfter),
        }
        number += 1;
        rest = behind;
    }
    Err(Refusal::NoEnd)
}

// The first line, without its LF, and what stands behind it.
fn first_line(text: &[u8]) -> Option<(&[u8], &[u8])>
    ensures { MatchOption result (length text.now ≤ first (Is 0x0a) text.now) (λ parts. IsFirstLine text.now parts.0.now parts.1.now) }
{
    let end = first(Class::Is(b'\n'), text);
    if end == text.len() {
        return None;
    }
    Some((&text[..end], &text[end + 1..]))
}

// One line, without its LF.
#[tactic(auto, unfolding(crate::specs::File::turn))]
fn read_line(line: &[u8], number: usize, sheet: &mut Sheet) -> Result<Turn, Refusal>
    ensures { progress result sheet.new.image sheet.new.marks
        ≡ turn number (as_sheet sheet.old.image sheet.old.marks) line.now }
{
    match Record::of(line) {
        Ok(Record::Fills(spelled)) => {
            sheet.place(spelled.as_bytes(), number)?;
            Ok(Turn::Goes)
        },
        Ok(Record::Ends) => Ok(Turn::Ended),
        Err(misread) => Err(refusal(misread, number)),
    }
}

// A line that is no record, as the reading tells it.
fn refusal(misread: Misread, number: usize) -> Refusal
    ensures { refusal_number result ≡ in_line (misread_number misread) number }
{
    match misread {
        Misread::Shape => Refusal::Shape(number),
        Misread::Checksum => Refusal::Checksum(number),
        Misread::OtherType => Refusal::OtherType(number),
    }
}
