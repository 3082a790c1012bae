// What comes in and what is printed. A place at or past the end of the input means none left.
ghost use Rattle.std.specs.Prelude.{◌≡◌};
ghost use Rattle.effect.specs.Effects.{kept, taken, dry, crowded, fate_by};
ghost use Rattle.effect.specs.Numbers.{ending};
ghost use Rattle.effect.specs.declared.Write.TheVariants.{Output};

use crate::moves::Core;
use crate::{Effect, Fault, Write};

impl Core {
    pub fn take(self, register: u8, input: &[u8]) -> Result<Effect, Fault>
        ensures { ending result ≡ fate_by (dry self input.now) (taken self 2 register input.now) }
    {
        let place = self.place;
        if input.len() <= place {
            return Err(Fault::NoInput);
        }
        Ok(self.at_place(place + 1).load(2, register, input[place]))
    }

    pub fn print(self, value: u8, room: bool) -> Result<Effect, Fault>
        ensures { ending result ≡ fate_by (crowded room) (kept self 2 (Output value)) }
    {
        if room {
            Ok(self.keep(2, Write::Output(value)))
        } else {
            Err(Fault::NoRoom)
        }
    }
}
