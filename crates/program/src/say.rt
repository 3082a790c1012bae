// What a program writes to standard output, and what it says on standard error.
ghost use Rattle.std.specs.Prelude.{◌≡◌};

use std::fmt::Display;
use std::io::{Error, Result};
use std::rt::{Stderr, Stdout};

// Standard error, and the program's name, which stands before what it says there. It need not be UTF-8.
#[derive(Clone, Copy)]
pub struct Voice<'a> {
    pub err: Stderr,
    pub program: &'a [u8],
}

// Where a program writes.
#[derive(Clone, Copy)]
pub struct Streams<'a> {
    pub out: Stdout,
    pub voice: Voice<'a>,
}

impl<'a> Voice<'a> {
    // The bytes to standard error. Where they cannot be written, there is no one to say so to.
    pub fn tell(mut self, bytes: &[u8]) {
        let _ = files::write(&mut self.err, bytes);
    }

    // Why, in words that need not be text.
    pub fn why(self, words: &[u8]) {
        self.name();
        self.end(words);
    }

    // The same, of what is shown as text.
    pub fn explain<D: Display + Drop>(self, words: D) {
        self.name();
        let _ = eprintln!(self.err; "{words}");
    }

    // Why a call failed. What it was about need not be text, as a file's name.
    pub fn failed(self, what: &[u8], reason: Error) {
        self.name();
        self.tell(what);
        let _ = eprintln!(self.err; ": {reason}");
    }

    // The last words of a line.
    fn end(self, words: &[u8]) {
        self.tell(words);
        self.tell(b"\n");
    }

    fn name(self) {
        self.tell(self.program);
        self.tell(b": ");
    }
}

impl<'a> Streams<'a> {
    pub fn new(rt: &HostRuntime, program: &'a [u8]) -> Streams<'a>
        ensures { result.voice.program.now ≡ program.now }
    {
        Streams {
            out: rt.stdout(),
            voice: Voice {
                err: rt.stderr(),
                program,
            },
        }
    }

    // The bytes to standard output, and whether they were written; where they were not, it was said why.
    pub fn print(mut self, bytes: &[u8]) -> bool {
        let written = files::write(&mut self.out, bytes);
        self.is_written(written)
    }

    // The number on standard output, and why on standard error, in words that need not be text.
    pub fn refused_why(self, number: usize, words: &[u8]) {
        self.is_written(println!(self.out; "refused {number}"));
        self.voice.name();
        self.voice.tell(b"refused: ");
        self.voice.end(words);
    }

    // The same, of what is shown as text.
    pub fn refused<D: Display + Drop>(self, number: usize, words: D) {
        self.is_written(println!(self.out; "refused {number}"));
        self.voice.name();
        let _ = eprintln!(self.voice.err; "refused: {words}");
    }

    fn is_written(self, written: Result<()>) -> bool {
        match written {
            Ok(()) => true,
            Err(reason) => {
                self.voice.failed(b"standard output", reason);
                false
            }
        }
    }
}
