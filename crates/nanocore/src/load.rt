// Programs into memory.
ghost use Rattle.std.specs.Prelude.{◌≡◌};
ghost use Rattle.nanocore.specs.Load.{load_of};
ghost use Rattle.nanocore.specs.Numbers.{loading};

use crate::answer::{Handed, LoadAnswer, TooLong};
use crate::machine::Machine;

impl Machine {
    pub fn load(mut self, program: &[u8], start: u8) -> Handed<LoadAnswer>
        ensures { loading result ≡ load_of self program.now start }
    {
        let length = program.len();
        let from = usize::from(start);
        if 256 - from < length {
            return Handed {
                answer: Err(TooLong { length, start }),
                machine: self,
            };
        }
        self.memory[from..from + length].copy_from_slice(program);
        self.pc = start;
        Handed {
            answer: Ok(()),
            machine: self,
        }
    }
}
