// What a line is, from its bytes.
ghost use Rattle.std.specs.Prelude.{◌≡◌, IfOk, take};
ghost use Rattle.hexline.specs.Code.{IsWhole, rowing};
ghost use Rattle.hexline.specs.Row.{row_by, row_of, row_spelled, shaped, without_return};
ghost use Rattle.hexline.specs.Spelling.{spelled};

use crate::spell::spell;
use crate::spelled::Spelled;
use crate::sum::sum;
use fields::read::byte_at;

// Data come with all the bytes of their record.
#[derive(Clone, Copy)]
pub enum Record {
    Fills(Spelled),
    Ends,
}

// Why a line is no record.
#[derive(Clone, Copy, PartialEq, Eq, Debug)]
pub enum Misread {
    Shape,
    Checksum,
    OtherType,
}

impl Record {
    // The line comes without its LF.
    #[tactic(auto, unfolding(crate::specs::Row::row_of))]
    pub fn of(line: &[u8]) -> Result<Record, Misread>
        ensures result_value { rowing result ≡ row_of line.now }
        ensures length_value { IfOk result IsWhole }
    {
        match before_return(line) {
            [b':', digits @ ..] => Record::spelled_by(digits),
            _ => Err(Misread::Shape),
        }
    }

    // By the digits behind the colon. More than 520 are those of no record.
    #[tactic(auto, using(crate::proofs::RowLaws::too_long))]
    fn spelled_by(digits: &[u8]) -> Result<Record, Misread>
        ensures result_value { rowing result ≡ row_spelled (spelled digits.now) }
        ensures length_value { IfOk result IsWhole }
    {
        if digits.len() > 520 {
            return Err(Misread::Shape);
        }
        Record::of_bytes(spell(digits).ok_or(Misread::Shape)?)
    }

    // The tests come in the order of the refusals.
    #[tactic(auto, unfolding(crate::specs::Row::row_by))]
    fn of_bytes(spelled: Spelled) -> Result<Record, Misread>
        ensures result_value { rowing result ≡ row_by (take spelled.count spelled.bytes) }
        ensures length_value { IfOk result IsWhole }
    {
        let bytes = spelled.as_bytes();
        if !is_shaped(bytes) {
            return Err(Misread::Shape);
        }
        if sum(bytes) != 0 {
            return Err(Misread::Checksum);
        }
        match byte_at(bytes, 3) {
            0 => Ok(Record::Fills(spelled)),
            1 => Ok(Record::Ends),
            _ => Err(Misread::OtherType),
        }
    }
}

// All before a CR that stands last.
fn before_return(line: &[u8]) -> &[u8]
    ensures { result.now ≡ without_return line.now }
{
    match line {
        [text @ .., b'\r'] => text,
        _ => line,
    }
}

// As many data bytes as it says, beside five others, and none in type 01.
fn is_shaped(bytes: &[u8]) -> bool
    ensures { result ≡ shaped bytes.now }
{
    let count = usize::from(byte_at(bytes, 0));
    bytes.len() == count + 5 && !(byte_at(bytes, 3) == 1 && count > 0)
}
