// A line of a list of cases: a word that names its kind, and bytes.
ghost use Rattle.std.specs.Prelude.{◌<◌, ◌≤◌, ◌≡◌, ◌==◌, length, position, IfSome};
ghost use Rattle.lines.specs.Line.{line_of, told, word_end, word_of, judged_by};

use crate::table::{flags, name, opcode};
use answers::answer::Kind;
use compare::verdict::Verdict;
use digits::unhex::unhex;
use replay::case::judge;

// What the first word says that the line is.
#[derive(Clone, Copy, PartialEq, Eq, Debug)]
pub enum Word {
    Step,
    Run,
    Load,
    Opcode,
    Name,
    Flags,
}

// Why a line has no case.
#[derive(Clone, Copy, PartialEq, Eq, Debug)]
pub enum NoCase {
    // the first word names no kind of case
    NoKind,
    // so far behind the first word stands something that is no byte
    NoByte(usize),
}

// Reads a line without its LF, and replays its case: how it compared. The case's bytes are put in the buffer.
#[tactic(auto, unfolding(crate::specs::Line::line_of))]
pub fn replay_line(text: &[u8], buffer: &mut [u8]) -> Result<Verdict, NoCase>
    ensures { told result buffer.new ≡ line_of text.now buffer.old }
{
    let end = word_end(text);
    let count = unhex(&text[end..], buffer).map_err(|stopped| NoCase::NoByte(stopped.at))?;
    let word = first_word(&text[..end]).ok_or(NoCase::NoKind)?;
    Ok(judged(word, &buffer[..count]))
}

// Where the first blank stands, or the end.
pub fn word_end(text: &[u8]) -> usize
    ensures value { result ≡ word_end text.now }
    ensures upper_bound { result ≤ length text.now }
{
    first_blank(text).unwrap_or(text.len())
}

fn first_blank(text: &[u8]) -> Option<usize>
    ensures value { result ≡ position (λ c. c == 32) text.now }
    ensures upper_bound { IfSome result (λ i. i < length text.now) }
{
    text.iter().position(|c| *c == b' ')
}

#[tactic(auto, using(crate::proofs::LineLaws::other_length, crate::proofs::LineLaws::other_first), unfolding(crate::specs::Line::word_of))]
pub fn first_word(text: &[u8]) -> Option<Word>
    ensures { result ≡ word_of text.now }
{
    match text {
        b"step" => Some(Word::Step),
        b"run" => Some(Word::Run),
        b"load" => Some(Word::Load),
        b"opcode" => Some(Word::Opcode),
        b"name" => Some(Word::Name),
        b"flags" => Some(Word::Flags),
        _ => None,
    }
}

fn judged(word: Word, case: &[u8]) -> Verdict
    ensures { result ≡ judged_by word case.now }
{
    match word {
        Word::Step => judge(Kind::Step, case),
        Word::Run => judge(Kind::Run, case),
        Word::Load => judge(Kind::Load, case),
        Word::Opcode => opcode(case),
        Word::Name => name(case),
        Word::Flags => flags(case),
    }
}
