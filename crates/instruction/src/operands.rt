// The operands of an instruction, read from bytes two and three and put back into them.
ghost use Rattle.std.specs.Prelude.{◌≡◌};
ghost use Rattle.instruction.specs.Operands.{operands_of};
ghost use Rattle.instruction.specs.Encode.{shape_of, registers_exist, two_of, three_of};

use op::form::Form;

#[derive(Clone, Copy, PartialEq, Eq, Debug)]
pub enum Operands {
    None,
    Reg(u8),
    RegImm(u8, u8),
    RegReg(u8, u8),
    RegAddr(u8, u8),
    Addr(u8),
}

impl Operands {
    // A register that stands alone in its byte is the byte's low nibble: a stray high nibble names no other register.
    pub fn of_form(form: Form, second: u8, third: u8) -> Operands
        ensures { result ≡ operands_of form second third }
    {
        match form {
            Form::None => Operands::None,
            Form::Reg => Operands::Reg(second % 16),
            Form::RegImm => Operands::RegImm(second % 16, third),
            Form::RegReg => Operands::RegReg(second / 16, second % 16),
            Form::RegAddr => Operands::RegAddr(second % 16, third),
            Form::Addr => Operands::Addr(second),
        }
    }

    // The form that these operands have.
    pub fn form(self) -> Form
        ensures { result ≡ shape_of self }
    {
        match self {
            Operands::None => Form::None,
            Operands::Reg(_) => Form::Reg,
            Operands::RegImm(_, _) => Form::RegImm,
            Operands::RegReg(_, _) => Form::RegReg,
            Operands::RegAddr(_, _) => Form::RegAddr,
            Operands::Addr(_) => Form::Addr,
        }
    }

    // Whether no register is above 15.
    pub fn registers_exist(self) -> bool
        ensures { result ≡ registers_exist self }
    {
        match self {
            Operands::None | Operands::Addr(_) => true,
            Operands::Reg(r) | Operands::RegImm(r, _) | Operands::RegAddr(r, _) => r <= 15,
            Operands::RegReg(d, s) => d <= 15 && s <= 15,
        }
    }

    // Byte two. Registers are below 16 where encode asks; the remainders keep this total.
    pub fn second_byte(self) -> u8
        ensures { result ≡ two_of self }
    {
        match self {
            Operands::None => 0,
            Operands::Reg(r) | Operands::RegImm(r, _) | Operands::RegAddr(r, _) => r % 16,
            Operands::RegReg(d, s) => d % 16 * 16 + s % 16,
            Operands::Addr(a) => a,
        }
    }

    pub fn third_byte(self) -> u8
        ensures { result ≡ three_of self }
    {
        match self {
            Operands::RegImm(_, third) | Operands::RegAddr(_, third) => third,
            Operands::None | Operands::Reg(_) | Operands::RegReg(_, _) | Operands::Addr(_) => 0,
        }
    }
}
