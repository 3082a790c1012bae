// What nanoreplay prints.
use compare::verdict::{Difference, Part};
use lines::line::Word;
use std::fmt;
use std::io::Error;
use std::rt::{Stderr, Stdout};

// How many lines were read, how many cases were compared, how many of them differ, and how many lines were no whole cases.
#[derive(Clone, Copy, Default)]
pub struct Tally {
    pub lines: u64,
    pub compared: u64,
    pub differ: u64,
    pub unread: u64,
}

// What is to be said of a line.
#[derive(Clone, Copy)]
pub enum Remark {
    // it has more bytes than this
    TooLong(usize),
    // the list ends inside it
    Cut,
    // its first word names no kind of case
    NoKind,
    // no byte stands in this column
    NoByte(usize),
    // its case needs so many bytes
    Torn(usize),
    // a number of its case is out of its range
    Unfit,
    // its case, of this kind, differs here
    Differs(Option<Word>, Difference),
}

// Where a case of this kind differs.
#[derive(Clone, Copy)]
struct Place {
    kind: Option<Word>,
    part: Part,
    index: usize,
}

// What failed, and why, on standard error. A file's name need not be UTF-8.
pub fn failed(err: Stderr, what: &[u8], reason: Error) {
    let _ = err.write_all(what);
    let _ = eprintln!(err; ": {reason}");
}

// The name of a file, before what is said of its list.
pub fn name(out: Stdout, path: &[u8]) {
    let _ = out.write_all(path);
    let _ = println!(out);
}

pub fn at_line(out: Stdout, line: u64, remark: Remark) {
    let _ = println!(out; "line {line}: {remark}");
}

pub fn total(out: Stdout, tally: Tally) {
    let _ = println!(out; "{tally}");
}

// How many lines were no cases stands there only where there were any.
impl fmt::Display for Tally {
    fn fmt<W: fmt::Write>(&self, f: &mut fmt::Formatter<W>) -> fmt::Result {
        let Tally {
            compared,
            differ,
            unread,
            ..
        } = *self;
        if unread > 0 {
            writeln!(f, "not compared: {unread}")?;
        }
        write!(f, "compared {compared} differ {differ}")
    }
}

impl fmt::Display for Remark {
    fn fmt<W: fmt::Write>(&self, f: &mut fmt::Formatter<W>) -> fmt::Result {
        match *self {
            Remark::TooLong(most) => write!(
                f,
                "longer than {most} bytes; the rest of the list is not read"
            ),
            Remark::Cut => write!(f, "the list ends inside it"),
            Remark::NoKind => write!(
                f,
                "its first word is none of step, run, load, opcode, name, flags"
            ),
            Remark::NoByte(column) => write!(f, "no byte at column {column}"),
            Remark::Torn(needed) => write!(
                f,
                "torn: by its own counts the case has {needed} bytes"
            ),
            Remark::Unfit => write!(f, "halted, count, limit, start or room is out of its range"),
            Remark::Differs(kind, d) => {
                let place = Place {
                    kind,
                    part: d.part,
                    index: d.index,
                };
                write!(f, "{place} is {}, the case has {}", d.ours, d.theirs)
            }
        }
    }
}

impl fmt::Display for Place {
    fn fmt<W: fmt::Write>(&self, f: &mut fmt::Formatter<W>) -> fmt::Result {
        let index = self.index;
        f.write_str(kind(self.kind))?;
        match self.part {
            Part::Number => field(f, self.kind, index),
            Part::Register => write!(f, "register {index}"),
            Part::Memory => write!(f, "memory {index}"),
            Part::Output => write!(f, "output {index}"),
        }
    }
}

fn kind(word: Option<Word>) -> &'static str {
    match word {
        Some(Word::Step) => "step: ",
        Some(Word::Run) => "run: ",
        Some(Word::Load) => "load: ",
        Some(Word::Opcode) => "opcode: ",
        Some(Word::Name) => "name: ",
        Some(Word::Flags) => "flags: ",
        None => "",
    }
}

// A number of an answer: of a machine's by what it is, of the others by its place.
fn field<W: fmt::Write>(
    f: &mut fmt::Formatter<W>,
    kind: Option<Word>,
    index: usize,
) -> fmt::Result {
    match kind {
        Some(Word::Step | Word::Run | Word::Load) => f.write_str(machine_field(index)),
        _ => write!(f, "answer byte {index}"),
    }
}

fn machine_field(index: usize) -> &'static str {
    match index {
        0 => "the number",
        1 => "the first value",
        2 => "the second value",
        3 => "pc",
        4 => "sp",
        5 => "flags",
        6 => "halted",
        7 => "count",
        8 => "limit",
        9 => "the place",
        _ => "the number written",
    }
}
