// What a reading answers.

// Why image and marks are as they were. Five come with the line.
#[derive(Clone, Copy, PartialEq, Eq, Debug)]
pub enum Refusal {
    NoImage,
    Shape(usize),
    Checksum(usize),
    OtherType(usize),
    PastEnd(usize),
    SetTwice(usize),
    NoEnd,
    TextAfter,
}
