// Operands as the host has them: the number of their form, and two bytes, 0 for one that there is not.
ghost use Rattle.std.specs.Prelude.{◌≡◌};
ghost use Rattle.instruction.specs.Operands.{first_of, second_of};
ghost use Rattle.host_instruction.specs.Operands.{given};

use instruction::operands::Operands;
use op::form::Form;

pub fn first(operands: Operands) -> u8
    ensures { result ≡ first_of operands }
{
    match operands {
        Operands::None => 0,
        Operands::Reg(first)
        | Operands::RegImm(first, _)
        | Operands::RegReg(first, _)
        | Operands::RegAddr(first, _)
        | Operands::Addr(first) => first,
    }
}

pub fn second(operands: Operands) -> u8
    ensures { result ≡ second_of operands }
{
    match operands {
        Operands::None | Operands::Reg(_) | Operands::Addr(_) => 0,
        Operands::RegImm(_, second) | Operands::RegReg(_, second) | Operands::RegAddr(_, second) =>
            second,
    }
}

// What the form does not take is left out.
pub fn given(form: Form, first: u8, second: u8) -> Operands
    ensures { result ≡ given form first second }
{
    match form {
        Form::None => Operands::None,
        Form::Reg => Operands::Reg(first),
        Form::RegImm => Operands::RegImm(first, second),
        Form::RegReg => Operands::RegReg(first, second),
        Form::RegAddr => Operands::RegAddr(first, second),
        Form::Addr => Operands::Addr(first),
    }
}
