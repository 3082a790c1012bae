// The image and the marks that the lines are read onto.
ghost use Rattle.std.specs.Prelude.{◌+◌, ◌≤◌, ◌≡◌, length};
ghost use Rattle.hexline.specs.Row.{address_of, count_of, data_of};
ghost use Rattle.hexread.specs.File.{put, sheet};
ghost use Rattle.hexread.specs.Numbers.{placing};

use crate::answer::Refusal;
use scan::class::Class;
use scan::scan::some;

#[derive(Clone, Copy)]
pub struct Sheet {
    pub image: [u8; 256],
    pub marks: [u8; 256],
}

impl Sheet {
    // The bytes of a record that is as long as it says.
    pub fn place(&mut self, bytes: &[u8], number: usize) -> Result<(), Refusal>
        requires { length bytes.now ≡ count_of bytes.now + 5 }
        ensures { placing result self.new.image self.new.marks
            ≡ put number (sheet self.old.image self.old.marks) (address_of bytes.now) (data_of bytes.now) }
    {
        let address = u16::from_be_bytes([bytes[1], bytes[2]]);
        let end = bytes.len() - 1;
        self.place_at(usize::from(address), &bytes[4..end], number)
    }

    // The data fill their stretch, and the marks there are set.
    fn place_at(&mut self, address: usize, held: &[u8], number: usize) -> Result<(), Refusal>
        requires { address ≤ 65535 }
        ensures { placing result self.new.image self.new.marks
            ≡ put number (sheet self.old.image self.old.marks) address held.now }
    {
        if held.is_empty() {
            return Ok(());
        }
        let end = address + held.len();
        if end > 256 {
            return Err(Refusal::PastEnd(number));
        }
        if some(Class::IsNot(0), &self.marks[address..end]) {
            return Err(Refusal::SetTwice(number));
        }
        self.image[address..end].copy_from_slice(held);
        self.marks[address..end].fill(1);
        Ok(())
    }
}
