// Results with flags: Z and N follow the byte, and C is the bit that left.
ghost use Rattle.std.specs.Prelude.{◌≡◌};
ghost use Rattle.effect.specs.Effects.{flagged, resulted, compared, zero_divisor, fate_by};
ghost use Rattle.effect.specs.Numbers.{ending};

use crate::moves::Core;
use crate::{Effect, Fault, Write};
use byte::Carried;
use byte::flags::{update_carry_flag, update_zn_flags};

impl Core {
    // pc goes on by the length, with the flags of a result.
    #[tactic(auto, unfolding(crate::specs::Effects::flagged))]
    fn flagged(self, length: u8, write: Write, res: Carried) -> Effect
        ensures { result ≡ flagged self length write res }
    {
        let zn = update_zn_flags(self.flags, res.value);
        Effect {
            write,
            pc: self.pc.wrapping_add(length),
            sp: self.sp,
            flags: update_carry_flag(zn, res.carry),
            place: self.place,
        }
    }

    // The register takes the result.
    pub fn result(self, length: u8, register: u8, res: Carried) -> Effect
        ensures { result ≡ resulted self length register res }
    {
        self.flagged(length, Write::Register(register, res.value), res)
    }

    // No register is written.
    pub fn compare(self, length: u8, res: Carried) -> Effect
        ensures { result ≡ compared self length res }
    {
        self.flagged(length, Write::Nothing, res)
    }

    // The register takes the result, unless the divisor is 0.
    pub fn divide(
        self,
        opcode: u8,
        divisor: u8,
        length: u8,
        register: u8,
        res: Carried,
    ) -> Result<Effect, Fault>
        ensures { ending result ≡ fate_by (zero_divisor opcode divisor) (resulted self length register res) }
    {
        if divisor == 0 {
            Err(Fault::DivisorZero(opcode))
        } else {
            Ok(self.result(length, register, res))
        }
    }
}
