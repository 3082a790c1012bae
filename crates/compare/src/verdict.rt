// How two answers compare: the first place where they part.
ghost use Rattle.std.specs.Prelude.{◌≡◌};
ghost use Rattle.compare.specs.Verdict.{parted_by};

use fields::apart::alike;
use fields::number::Number;
use fields::read::number_at;

// What a difference is in.
#[derive(Clone, Copy, PartialEq, Eq, Debug)]
pub enum Part {
    // one of the numbers of an answer
    Number,
    Register,
    Memory,
    Output,
}

// The first number, register or byte that differs: which, what we have there and what the case has.
#[derive(Clone, Copy, PartialEq, Eq, Debug)]
pub struct Difference {
    pub part: Part,
    pub index: usize,
    pub ours: usize,
    pub theirs: usize,
}

// Why a case is not the same.
#[derive(Clone, Copy, PartialEq, Eq, Debug)]
pub enum Mismatch {
    Differs(Difference),
    // the case is not as long as it says that it is: the bytes that it needs
    Torn(usize),
    // a number of the given machine, or the room, is out of its range
    Unfit,
}

pub type Verdict = Result<(), Mismatch>;

// Whether two lists of one length are the same: bytes, or the numbers of an answer.
#[tactic(auto, unfolding(crate::specs::Verdict::parted_by))]
pub fn parted<T: Number>(part: Part, ours: &[T], theirs: &[T]) -> Verdict
    ensures { result ≡ parted_by T.eq T.value T.nothing part ours.now theirs.now }
{
    let index = alike(ours, theirs);
    if index < ours.len() {
        return Err(Mismatch::Differs(Difference {
            part,
            index,
            ours: number_at(ours, index),
            theirs: number_at(theirs, index),
        }));
    }
    Ok(())
}
