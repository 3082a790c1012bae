// What a line means to the address pass.
ghost use Rattle.std.specs.Prelude.{◌≡◌};
ghost use Rattle.source.specs.Meaning.{is_constant, is_label, meaning_of, operation_of, string_of};
ghost use Rattle.names.specs.Names.{named};
ghost use Rattle.source.specs.Words.{first_word};

use crate::word::{first_word, first_word_is, starts_with, words};
use names::name::from_name;
use scan::class::Class;
use scan::scan::{first, last, some};

// Nothing, so many bytes of a rule, or a label.
#[derive(Clone, Copy, PartialEq, Eq, Debug)]
pub enum Meaning {
    Nothing,
    Bytes(usize),
    Label,
}

// Why a line means nothing that is known: a string without its two quotes, or a first word that is no operation.
#[derive(Clone, Copy, PartialEq, Eq, Debug)]
pub enum Unread {
    ShortString,
    NoOperation,
}

impl Meaning {
    // The line is what `line` leaves of it. The order matters: `.DB:` is data and no label.
    #[tactic(auto, using(crate::proofs::WordLaws::data_words), unfolding(crate::specs::Meaning::meaning_of))]
    pub fn of(line: &[u8]) -> Result<Meaning, Unread>
        ensures { result ≡ meaning_of line.now }
    {
        if line.is_empty() || is_constant(line) {
            return Ok(Meaning::Nothing);
        }
        if starts_with(line, b".DB") {
            return Ok(Meaning::Bytes(words(line) - 1));
        }
        if starts_with(line, b".STRING") {
            return string(line);
        }
        if is_label(line) {
            return Ok(Meaning::Label);
        }
        operation(line)
    }
}

pub fn is_constant(line: &[u8]) -> bool
    ensures { result ≡ is_constant line.now }
{
    first_word_is(line, b".CONST")
}

pub fn is_label(line: &[u8]) -> bool
    ensures { result ≡ is_label line.now }
{
    last(Class::Is(b':'), line) == line.len()
        && !some(Class::Blank, line)
        && some(Class::IsNot(b':'), line)
}

// The bytes between first and last quote, and the 0 behind them.
#[tactic(auto, using(scan::proofs::ScanLaws::two_apart))]
fn string(line: &[u8]) -> Result<Meaning, Unread>
    ensures { result ≡ string_of line.now }
{
    let from = first(Class::Is(b'"'), line);
    let to = last(Class::Is(b'"'), line);
    if to <= from + 1 {
        return Err(Unread::ShortString);
    }
    Ok(Meaning::Bytes(to - from - 1))
}

fn operation(line: &[u8]) -> Result<Meaning, Unread>
    ensures { result ≡ operation_of (named (first_word line.now)) }
{
    match from_name(first_word(line)) {
        Some(op) => Ok(Meaning::Bytes(usize::from(op.instruction_len()))),
        None => Err(Unread::NoOperation),
    }
}
