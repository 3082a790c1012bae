// A program in words, into a lent buffer.
ghost use Rattle.std.specs.Prelude.{◌≡◌};
ghost use Rattle.answer_number.specs.Numbered.{numbered};
ghost use Rattle.answer_number.specs.Texted.{texted};
ghost use Rattle.listing.specs.Numbers.{list_number};
ghost use Rattle.host_text.specs.Text.{list_from};

use answer_number::{Numbered, numbers, with_value};
use listing::listing::ListRefusal;

pub fn list(program: &[u8], start: u8, text: &mut [u8], values: &mut [usize; 2]) -> usize
    ensures { texted result values.new text.new ≡ list_from program.now start text.old }
{
    let number = list_number(listing::listing::list(program, start, text));
    *values = [number.first, number.second];
    number.number
}

fn list_number(answer: Result<usize, ListRefusal>) -> Numbered
    ensures { result ≡ numbered (list_number answer) }
{
    match answer {
        Ok(length) => with_value(0, length),
        Err(ListRefusal::TooLong { length, start }) => numbers(11, length, usize::from(start)),
        Err(ListRefusal::NoRoom(needed)) => with_value(14, needed),
    }
}
