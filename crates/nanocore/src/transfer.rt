// The marked bytes of an image into memory.
ghost use Rattle.std.specs.Prelude.{◌≡◌};
ghost use Rattle.nanocore.specs.Numbers.{transferring};
ghost use Rattle.nanocore.specs.Transfer.{transfer_of};

use crate::answer::{Handed, NoImage, TransferAnswer};
use crate::machine::Machine;
use fields::overlay::overlay;

impl Machine {
    pub fn transfer(mut self, image: &[u8], marks: &[u8]) -> Handed<TransferAnswer>
        ensures { transferring result ≡ transfer_of self image.now marks.now }
    {
        if image.len() != 256 || marks.len() != 256 {
            return Handed {
                answer: Err(NoImage),
                machine: self,
            };
        }
        self.memory = overlay(self.memory, image, marks);
        Handed {
            answer: Ok(()),
            machine: self,
        }
    }
}
