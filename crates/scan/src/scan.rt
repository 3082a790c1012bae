// The first byte of a class in a text, the last, and the end of a line. All are places to cut at, so they lie in the text or at its end.
ghost use Rattle.std.specs.Prelude.{◌+◌, ◌≤◌, ◌≡◌, length, drop};
ghost use Rattle.scan.specs.declared.class.Class.TheVariants.{Is};
ghost use Rattle.scan.specs.Scan.{first, last, some};

use crate::class::Class;

// How many bytes stand before the first of the class: all, where there is none.
#[tactic(auto, using(crate::proofs::ScanLaws::within_laws))]
pub fn first(class: Class, text: &[u8]) -> usize
    ensures value { result ≡ first class text.now }
    ensures upper_bound { result ≤ length text.now }
{
    text.iter()
        .position(|byte| class.passes(*byte))
        .unwrap_or(text.len())
}

// How many bytes there are up to the last of the class, with it: 0, where there is none.
#[tactic(auto, using(crate::proofs::ScanLaws::within_laws))]
pub fn last(class: Class, text: &[u8]) -> usize
    ensures value { result ≡ last class text.now }
    ensures upper_bound { result ≤ length text.now }
{
    match text.iter().rposition(|byte| class.passes(*byte)) {
        Some(at) => at + 1,
        None => 0,
    }
}

// Whether some byte is of the class.
pub fn some(class: Class, text: &[u8]) -> bool
    ensures { result ≡ some class text.now }
{
    first(class, text) < text.len()
}

// Where the line that begins at a place ends: at its LF, or with the text.
pub fn line_end(text: &[u8], at: usize) -> usize
    requires { at ≤ length text.now }
    ensures value { result ≡ at + first (Is 0x0a) (drop at text.now) }
    ensures upper_bound { result ≤ length text.now }
{
    at + first(Class::Is(b'\n'), &text[at..])
}
