// What nanolabels writes.
use labels::pass::Refusal;
use labels::verdict::verdict;
use program::say::Streams;
use std::fmt::{Display, Error, Formatter, Write};
use text::line::Line;

// A name and its address, and whether they were written.
pub fn label(to: Streams, name: &[u8], address: u8) -> bool {
    let rest = Line::empty()
        .text(b" ")
        .decimal(usize::from(address))
        .text(b"\n");
    to.print(name) && to.print(rest.as_bytes())
}

// The verdict on standard output, and why on standard error: a label may be called `refused`, so standard output alone does not tell.
pub fn refused(to: Streams, refusal: Refusal) {
    to.print(verdict(refusal).as_bytes());
    to.voice.explain(Why(refusal));
}

// A refusal in words.
#[derive(Clone, Copy)]
struct Why(Refusal);

impl Display for Why {
    fn fmt<W: Write>(&self, f: &mut Formatter<W>) -> Result<(), Error> {
        match self.0 {
            Refusal::NoSource => f.write_str(
                "refused: a source has at most 16384 bytes, and none above 0x7F",
            ),
            Refusal::ShortString(line) => {
                write!(
                    f,
                    "refused: line {line}: .STRING takes two quotes, before any ;"
                )
            },
            Refusal::NoOperation(line) => {
                write!(
                    f,
                    "refused: line {line}: no label, and its first word is no operation"
                )
            },
            Refusal::TooManyLabels(line) => write!(f, "refused: line {line}: a 65th label"),
        }
    }
}
