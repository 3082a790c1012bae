// An answer as three numbers: the paper's number and two values, 0 for a value that there is not.
#![tactic(auto)]

ghost use Rattle.std.specs.Prelude.{◌≡◌};

#[derive(Clone, Copy)]
pub struct Numbered {
    pub number: usize,
    pub first: usize,
    pub second: usize,
}

pub fn numbers(number: usize, first: usize, second: usize) -> Numbered
    ensures { result ≡ record { number = number; first = first; second = second } }
{
    Numbered {
        number,
        first,
        second,
    }
}

// A number that comes with one value, or with none.
pub fn with_value(number: usize, value: usize) -> Numbered
    ensures { result ≡ record { number = number; first = value; second = 0 } }
{
    numbers(number, value, 0)
}
