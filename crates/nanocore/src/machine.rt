// The machine is a plain record: each operation takes the machine and hands the next machine back.
ghost use Rattle.std.specs.Prelude.{◌≡◌};
ghost use Rattle.byte.specs.Flags.{set_flag, clear_flag, get_flag, zn};
ghost use Rattle.nanocore.specs.Machine.{fresh, with_flags};

use byte::flags;

#[derive(Clone, Copy)]
pub struct Machine {
    pub registers: [u8; 16],
    pub memory: [u8; 256],
    pub pc: u8,
    pub sp: u8,
    pub flags: u8,
    pub halted: bool,
    pub count: u16,
    pub limit: u16,
}

// The largest count. A step that would raise it is refused.
pub const MAX_COUNT: u16 = 65535;

impl Machine {
    pub fn fresh() -> Machine
        ensures { result ≡ fresh }
    {
        Machine {
            registers: [0; 16],
            memory: [0; 256],
            pc: 0,
            sp: 0xFF,
            flags: 0,
            halted: false,
            count: 0,
            limit: 1024,
        }
    }

    pub fn set_flag(mut self, bit: u8) -> Machine
        ensures { result ≡ with_flags self (set_flag self.flags bit) }
    {
        self.flags = flags::set_flag(self.flags, bit);
        self
    }

    pub fn clear_flag(mut self, bit: u8) -> Machine
        ensures { result ≡ with_flags self (clear_flag self.flags bit) }
    {
        self.flags = flags::clear_flag(self.flags, bit);
        self
    }

    pub fn get_flag(self, bit: u8) -> bool
        ensures { result ≡ get_flag self.flags bit }
    {
        flags::get_flag(self.flags, bit)
    }

    pub fn update_zn_flags(mut self, res: u8) -> Machine
        ensures { result ≡ with_flags self (zn self.flags res) }
    {
        self.flags = flags::update_zn_flags(self.flags, res);
        self
    }
}
