// The stack: PUSH and the calls write at sp and lower it, POP and RET raise sp and read there.
ghost use Rattle.std.specs.Prelude.{◌≡◌};
ghost use Rattle.effect.specs.Effects.{ahead, pushed, popped, returned, full, empty, fate_by};
ghost use Rattle.effect.specs.Numbers.{ending};

use crate::moves::Core;
use crate::{Effect, Fault, Write};
use byte::arithmetic::wrapping_sub;

// sp at a full stack and at an empty one.
pub const STACK_MIN: u8 = 0xEA;

pub const STACK_MAX: u8 = 0xFF;

impl Core {
    // The byte goes to the stack, and pc where it is told.
    #[tactic(auto, unfolding(crate::specs::Effects::pushed))]
    fn put(self, value: u8, to: u8) -> Result<Effect, Fault>
        ensures { ending result ≡ fate_by (full self) (pushed self value to) }
    {
        if self.sp == STACK_MIN {
            return Err(Fault::StackFull(self.sp));
        }
        Ok(Effect {
            write: Write::Memory(self.sp, value),
            pc: to,
            sp: wrapping_sub(self.sp, 1),
            flags: self.flags,
            place: self.place,
        })
    }

    pub fn push(self, value: u8) -> Result<Effect, Fault>
        ensures { ending result ≡ fate_by (full self) (pushed self value (ahead self 2)) }
    {
        self.put(value, self.pc.wrapping_add(2))
    }

    // CALL and CALLR leave pc+2 on the stack.
    pub fn call(self, to: u8) -> Result<Effect, Fault>
        ensures { ending result ≡ fate_by (full self) (pushed self (ahead self 2) to) }
    {
        self.put(self.pc.wrapping_add(2), to)
    }

    pub fn pop(self, register: u8, memory: &[u8; 256]) -> Result<Effect, Fault>
        ensures { ending result ≡ fate_by (empty self) (popped self 2 register memory.now) }
    {
        if self.sp == STACK_MAX {
            return Err(Fault::StackEmpty(self.sp));
        }
        let raised = self.sp.wrapping_add(1);
        Ok(self.at_sp(raised).load_from(2, register, memory, raised))
    }

    pub fn ret(self, memory: &[u8; 256]) -> Result<Effect, Fault>
        ensures { ending result ≡ fate_by (empty self) (returned self memory.now) }
    {
        if self.sp == STACK_MAX {
            return Err(Fault::StackEmpty(self.sp));
        }
        let raised = self.sp.wrapping_add(1);
        Ok(self.at_sp(raised).jump(memory[usize::from(raised)]))
    }
}
