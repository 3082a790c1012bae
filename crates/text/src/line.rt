// A line of words and numbers, put together piece by piece. What it has no room for is left out.
ghost use Rattle.std.specs.Prelude.{◌+◌, ◌%◌, ◌≡◌, take};
ghost use Rattle.text.specs.Decimal.{decimal};
ghost use Rattle.text.specs.Lines.{appended, empty_line, named};

// The text stands at the start of the bytes; those behind it are 0.
#[derive(Clone, Copy)]
pub struct Line {
    pub bytes: [u8; 64],
    pub length: usize,
}

impl Line {
    pub fn empty() -> Line
        ensures { result ≡ empty_line }
    {
        Line {
            bytes: [0; 64],
            length: 0,
        }
    }

    // The text.
    pub fn as_bytes(&self) -> &[u8]
        ensures { result.now ≡ take self.now.length self.now.bytes }
    {
        &self.bytes[..self.length.min(64)]
    }

    // A piece of text behind what is there, as far as there is room.
    #[tactic(auto, using(crate::proofs::LineLaws::line_laws))]
    pub fn text(mut self, text: &[u8]) -> Line
        ensures { result ≡ appended self text.now }
    {
        for byte in text {
            if self.length >= 64 {
                break;
            }
            self.bytes[self.length] = *byte;
            self.length += 1;
        }
        self
    }

    // A number in decimal, without leading zeros. The largest has twenty digits; they come last first.
    pub fn decimal(self, number: usize) -> Line
        ensures { result ≡ appended self (decimal number) }
    {
        let mut digits = [0; 20];
        let mut at = 19;
        digits[at] = digit(number);
        let mut rest = number / 10;
        while rest > 0 {
            at -= 1;
            digits[at] = digit(rest);
            rest /= 10;
        }
        self.text(&digits[at..])
    }

    // A name and its number, with a space before each.
    pub fn named(self, name: &[u8], number: usize) -> Line
        ensures { result ≡ appended self (named name.now number) }
    {
        self.text(b" ").text(name).text(b" ").decimal(number)
    }
}

// The last digit of a number.
fn digit(number: usize) -> u8
    ensures { result ≡ 48 + number % 10 }
{
    48 + (number % 10) as u8
}
