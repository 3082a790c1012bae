// Words, and how a line begins.
ghost use Rattle.std.specs.Prelude.{◌≡◌};
ghost use Rattle.names.specs.Names.{same_text};
ghost use Rattle.source.specs.Words.{first_word, starts, words};

use scan::class::Class;
use scan::scan::first;

// How many words there are: what blanks part.
pub fn words(line: &[u8]) -> usize
    ensures { result ≡ words line.now }
{
    line.split(|byte| Class::Blank.passes(*byte))
        .filter(|word| !word.is_empty())
        .count()
}

// Whether the line begins with these bytes.
#[tactic(auto, using(crate::proofs::WordLaws::starts_same))]
pub fn starts_with(line: &[u8], beginning: &[u8]) -> bool
    ensures { result ≡ starts beginning.now line.now }
{
    line.starts_with(beginning)
}

// The bytes before the first blank.
pub(crate) fn first_word(line: &[u8]) -> &[u8]
    ensures { result.now ≡ first_word line.now }
{
    let end = first(Class::Blank, line);
    &line[..end]
}

// Whether these bytes are the line's first word.
pub fn first_word_is(line: &[u8], word: &[u8]) -> bool
    ensures { result ≡ same_text (first_word line.now) word.now }
{
    first_word(line) == word
}
