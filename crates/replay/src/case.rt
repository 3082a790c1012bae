// The case of a step, a run or a load: what was given, and what was answered. Past the fixed part of each stand its changes and its bytes.
ghost use Rattle.std.specs.Prelude.{◌+◌, ◌<◌, ◌≤◌, ◌≡◌, length};
ghost use Rattle.fields.specs.Lay.{laid};
ghost use Rattle.fields.specs.Read.{word_at};
ghost use Rattle.answers.specs.Answer.{answered};
ghost use Rattle.replay.specs.Case.{shape_of, fits, start_fits, given_by, recorded_by, pattern, compared, against, played, replayed, verdict_of};

use answers::answer::{Answer, Kind, ask};
use compare::verdict::{Mismatch, Part, Verdict, parted};
use fields::lay::{changed, lay};
use fields::read::{byte_at, stretch, word_at};
use nanocore::machine::Machine;

// The longest output buffer of a case.
const ROOM: usize = 4096;

// The byte that the whole output buffer holds beforehand.
const PATTERN: u8 = 0xA5;

// Where the parts of a case begin that have no fixed place: the input, the answer and the output; and where the case ends by its own counts.
#[derive(Clone, Copy)]
pub struct Shape {
    pub input: usize,
    pub answer: usize,
    pub output: usize,
    pub end: usize,
}

// The input's place, the number of bytes written before, and the length of the output buffer.
#[derive(Clone, Copy)]
pub struct Lent {
    pub place: usize,
    pub written: usize,
    pub room: usize,
}

// Whether the machine answers as the case says, in everything that a caller sees.
#[tactic(auto, using(crate::proofs::CaseLaws::fits_room), unfolding(crate::specs::Case::verdict_of))]
pub fn judge(kind: Kind, case: &[u8]) -> Verdict
    ensures { result ≡ verdict_of kind case.now }
{
    let shape = measure(case);
    if case.len() != shape.end {
        return Err(Mismatch::Torn(shape.end));
    }
    if !fits(kind, case) {
        return Err(Mismatch::Unfit);
    }
    replay(kind, case, shape)
}

#[tactic(auto, unfolding(crate::specs::Case::shape_of))]
fn measure(case: &[u8]) -> Shape
    ensures value { result ≡ shape_of case.now }
    ensures le_input { 48 ≤ result.input }
    ensures input_le_answer { result.input ≤ result.answer }
    ensures answer_bound { result.answer + 53 ≤ result.output }
    ensures output_le_end { result.output ≤ result.end }
{
    let input = 48 + 2 * word_at(case, 44);
    let answer = input + word_at(case, 40);
    let output = answer + 53 + 2 * word_at(case, answer + 49);
    let end = output + word_at(case, answer + 45);
    Shape {
        input,
        answer,
        output,
        end,
    }
}

#[tactic(auto, unfolding(crate::specs::Case::fits))]
fn fits(kind: Kind, case: &[u8]) -> bool
    ensures { result ≡ fits kind case.now }
{
    byte_at(case, 3) <= 1
        && word_at(case, 4) <= 65535
        && word_at(case, 8) <= 65535
        && word_at(case, 36) <= ROOM
        && start_fits(kind, case)
}

// The place of a load is the start address.
fn start_fits(kind: Kind, case: &[u8]) -> bool
    ensures { result ≡ start_fits kind case.now }
{
    match kind {
        Kind::Step | Kind::Run => true,
        Kind::Load => word_at(case, 28) <= 255,
    }
}

// A whole case that fits: the machine answers once more, and the two answers are compared.
fn replay(kind: Kind, case: &[u8], shape: Shape) -> Verdict
    requires le_input { 48 ≤ shape.input }
    requires input_le_answer { shape.input ≤ shape.answer }
    requires answer_bound { shape.answer + 53 ≤ shape.output }
    requires output_le_end { shape.output ≤ shape.end }
    requires end_value { shape.end ≡ length case.now }
    requires case_bound { word_at case.now 36 ≤ 4096 }
    ensures { result ≡ replayed kind case.now shape }
{
    let Shape {
        input,
        answer,
        output,
        ..
    } = shape;
    let memory = changed([0; 256], &case[48..input]);
    let after = changed(memory, &case[answer + 53..output]);
    let machine = given(case, stretch(&case[12..28], 0), memory);
    let registers = stretch(&case[answer + 21..answer + 37], 0);
    let theirs = recorded(&case[answer..], registers, after);
    let lent = Lent {
        place: word_at(case, 28),
        written: word_at(case, 32),
        room: word_at(case, 36),
    };
    let input = &case[input..answer];
    play(kind, machine, input, lent, theirs, &case[output..])
}

// Lets the machine print into a blank output buffer, lays what was printed before into another, and compares.
#[tactic(auto, unfolding(crate::specs::Case::played, crate::specs::Case::against))]
fn play(
    kind: Kind,
    machine: Machine,
    input: &[u8],
    lent: Lent,
    theirs: Answer,
    printed: &[u8],
) -> Verdict
    requires { lent.room ≤ 4096 }
    ensures { result ≡ played kind machine input.now lent theirs printed.now }
{
    let Lent {
        place,
        written,
        room,
    } = lent;
    let mut printing = blank();
    let mut laying = blank();
    let output = &mut printing[..room];
    let expected = &mut laying[..room];
    let ours = ask(kind, machine, input, place, &mut *output, written);
    lay(&mut *expected, written, printed);
    compare(ours, theirs, output, expected)
}

// The output buffer of every case beforehand.
#[tactic(auto, unfolding(crate::specs::Case::pattern))]
fn blank() -> [u8; ROOM]
    ensures value { result ≡ pattern }
    ensures value_2 { 4096 ≡ length result }
{
    [PATTERN; ROOM]
}

#[tactic(auto, unfolding(crate::specs::Case::compared))]
fn compare(ours: Answer, theirs: Answer, output: &[u8], expected: &[u8]) -> Verdict
    ensures { result ≡ compared ours theirs output.now expected.now }
{
    parted(Part::Number, &ours.numbers, &theirs.numbers)?;
    parted(Part::Register, &ours.registers, &theirs.registers)?;
    parted(Part::Memory, &ours.memory, &theirs.memory)?;
    parted(Part::Output, output, expected)
}

// The machine that was given.
fn given(case: &[u8], registers: [u8; 16], memory: [u8; 256]) -> Machine
    ensures { result ≡ given_by case.now registers memory }
{
    Machine {
        registers,
        memory,
        pc: byte_at(case, 0),
        sp: byte_at(case, 1),
        flags: byte_at(case, 2),
        halted: byte_at(case, 3) == 1,
        count: (word_at(case, 4) % 65536) as u16,
        limit: (word_at(case, 8) % 65536) as u16,
    }
}

// The answer that the case has, from where it begins.
fn recorded(answer: &[u8], registers: [u8; 16], memory: [u8; 256]) -> Answer
    ensures { result ≡ recorded_by answer.now registers memory }
{
    Answer {
        numbers: [
            usize::from(byte_at(answer, 0)),
            word_at(answer, 1),
            word_at(answer, 5),
            usize::from(byte_at(answer, 9)),
            usize::from(byte_at(answer, 10)),
            usize::from(byte_at(answer, 11)),
            usize::from(byte_at(answer, 12)),
            word_at(answer, 13),
            word_at(answer, 17),
            word_at(answer, 37),
            word_at(answer, 41),
        ],
        registers,
        memory,
    }
}
