// Where the machine stands, and the plain moves from there.
ghost use Rattle.std.specs.Prelude.{◌≡◌, slice_index};
ghost use Rattle.effect.specs.Effects.{at_sp, at_place, kept, loaded, jumped, branched};

use crate::{Effect, Write};
use byte::flags::update_zn_flags;

// What an instruction may move beside what it writes.
#[derive(Clone, Copy)]
pub struct Core {
    pub pc: u8,
    pub sp: u8,
    pub flags: u8,
    pub place: usize,
}

impl Core {
    pub fn at_sp(self, sp: u8) -> Core
        ensures { result ≡ at_sp self sp }
    {
        Core { sp, ..self }
    }

    pub fn at_place(self, place: usize) -> Core
        ensures { result ≡ at_place self place }
    {
        Core { place, ..self }
    }

    // pc goes on by the length, and all else stays.
    #[tactic(auto, unfolding(crate::specs::Effects::kept))]
    pub fn keep(self, length: u8, write: Write) -> Effect
        ensures { result ≡ kept self length write }
    {
        Effect {
            write,
            pc: self.pc.wrapping_add(length),
            sp: self.sp,
            flags: self.flags,
            place: self.place,
        }
    }

    // A register takes a byte, with ZN.
    #[tactic(auto, unfolding(crate::specs::Effects::loaded))]
    pub fn load(self, length: u8, register: u8, value: u8) -> Effect
        ensures { result ≡ loaded self length register value }
    {
        Effect {
            write: Write::Register(register, value),
            pc: self.pc.wrapping_add(length),
            sp: self.sp,
            flags: update_zn_flags(self.flags, value),
            place: self.place,
        }
    }

    // A register takes a byte of memory, with ZN.
    pub fn load_from(self, length: u8, register: u8, memory: &[u8; 256], address: u8) -> Effect
        ensures { result ≡ loaded self length register (slice_index memory.now address) }
    {
        self.load(length, register, memory[usize::from(address)])
    }

    #[tactic(auto, unfolding(crate::specs::Effects::jumped))]
    pub fn jump(self, to: u8) -> Effect
        ensures { result ≡ jumped self to }
    {
        Effect {
            write: Write::Nothing,
            pc: to,
            sp: self.sp,
            flags: self.flags,
            place: self.place,
        }
    }

    // To the address where the jump is taken, else on past the two bytes of JZ or JNZ.
    pub fn branch(self, to: u8, jumps: bool) -> Effect
        ensures { result ≡ branched self 2 to jumps }
    {
        if jumps {
            self.jump(to)
        } else {
            self.jump(self.pc.wrapping_add(2))
        }
    }
}
