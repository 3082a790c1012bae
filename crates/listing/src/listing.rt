// The listing of a program at a start address, into a lent buffer.
ghost use Rattle.std.specs.Prelude.{◌+◌, ◌≤◌, ◌++◌, ◌≡◌, IfOk, length, drop};
ghost use Rattle.fields.specs.Written.{told};
ghost use Rattle.front.specs.Listed.{listed};
ghost use Rattle.listing.specs.Listing.{listing_of};
ghost use Rattle.listing.specs.Numbers.{list_number};

use fields::lay::lay;
use row::rows::Rows;

// Why there is no listing: the program's length and its start, or the room that the text needs.
#[derive(Clone, Copy, PartialEq, Eq, Debug)]
pub enum ListRefusal {
    TooLong { length: usize, start: u8 },
    NoRoom(usize),
}

// The length of the text. It is measured before it is written, so that a buffer without room stays as it was.
pub fn list(program: &[u8], start: u8, buffer: &mut [u8]) -> Result<usize, ListRefusal>
    ensures value { told (list_number result) buffer.new ≡ listing_of program.now start buffer.old }
    ensures bound { IfOk result (λ n. n ≤ length buffer.new) }
{
    if 256 - usize::from(start) < program.len() {
        return Err(ListRefusal::TooLong {
            length: program.len(),
            start,
        });
    }
    let needed = measure(program, start);
    if buffer.len() < needed {
        return Err(ListRefusal::NoRoom(needed));
    }
    write(program, start, buffer);
    Ok(needed)
}

// How long the text is.
fn measure(program: &[u8], start: u8) -> usize
    requires { start + length program.now ≤ 256 }
    ensures { result ≡ length (listed program.now start) }
{
    let mut needed = 0;
    for line in Rows::of(program, start) {
        needed += line.as_bytes().len();
    }
    needed
}

fn write(program: &[u8], start: u8, buffer: &mut [u8])
    requires program_bound { start + length program.now ≤ 256 }
    requires start_in_bounds { length (listed program.now start) ≤ length buffer.old }
    ensures { buffer.new ≡ listed program.now start ++ drop (length (listed program.now start)) buffer.old }
{
    let mut place = 0;
    for line in Rows::of(program, start) {
        let text = line.as_bytes();
        lay(buffer, place, text);
        place += text.len();
    }
}
