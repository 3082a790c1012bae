// A list of cases, line by line.
ghost use Rattle.std.specs.Prelude.{◌≤◌, length};

use crate::say;
use crate::say::{Remark, Tally};
use compare::verdict::{Mismatch, Verdict};
use lines::line::{NoCase, first_word, replay_line, word_end};
use std::io::Read;
use std::rt::Stdout;

// So many differences are printed; all are counted.
const SHOWN: u64 = 20;

// A list as it is replayed: what was counted so far, and room for the bytes of a case.
#[derive(Drop)]
struct Replay {
    out: Stdout,
    tally: Tally,
    case: [u8; 65536],
}

// Reads the list to its end and says how its cases compared.
pub fn replay_list<R: Read>(file: &mut R, out: Stdout) {
    let mut text = [0u8; 65536];
    let mut replay = Replay {
        out,
        tally: Tally::default(),
        case: [0; 65536],
    };
    let mut waiting = 0;
    // a proved loop has to end, and nothing says that a file does: so many turns no run uses up
    for _ in 0..u64::MAX {
        match replay.read_on(file, &mut text, waiting) {
            Some(left) => waiting = left,
            None => break,
        }
    }
    say::total(out, replay.tally);
}

impl Replay {
    // Reads once, and replays the lines that are whole by then. The bytes of an unfinished line wait at the buffer's start for more; where the list is at
    // its end, or could not be read on, there is nothing to wait for.
    fn read_on<R: Read>(&mut self, file: &mut R, text: &mut [u8], waiting: usize) -> Option<usize> {
        if waiting >= text.len() {
            self.unfinished(Remark::TooLong(text.len()));
            return None;
        }
        let more = files::read(file, &mut text[waiting..]).unwrap_or_else(|cut| cut.count);
        if more == 0 {
            if waiting > 0 {
                self.unfinished(Remark::Cut);
            }
            return None;
        }
        let filled = waiting + more;
        let used = self.replay_lines(&text[..filled]);
        text.copy_within(used..filled, 0);
        Some(filled - used)
    }

    // Replays the lines of the text that have their LF, and answers how many bytes they are.
    fn replay_lines(&mut self, text: &[u8]) -> usize
        ensures { result ≤ length text.now }
    {
        let used = text
            .iter()
            .rposition(|byte| *byte == b'\n')
            .map_or(0, |last| last + 1);
        for line in text[..used].split_inclusive(|byte| *byte == b'\n') {
            self.replay_one(line.strip_suffix(b"\n").unwrap_or(line));
        }
        used
    }

    // Replays the case of one line, says what is to be said of it, and counts it.
    fn replay_one(&mut self, line: &[u8]) {
        self.tally.lines = self.tally.lines.wrapping_add(1);
        if line.starts_with(b"#") {
            return;
        }
        match replay_line(line, &mut self.case) {
            Ok(verdict) => self.judged(line, verdict),
            Err(NoCase::NoKind) => self.no_case(Remark::NoKind),
            // columns are counted from 1: the word's bytes, and so many behind it
            Err(NoCase::NoByte(at)) => {
                self.no_case(Remark::NoByte(word_end(line).wrapping_add(at).wrapping_add(1)))
            }
        }
    }

    fn judged(&mut self, line: &[u8], verdict: Verdict) {
        match verdict {
            Ok(()) => self.tally.compared(),
            Err(Mismatch::Differs(difference)) => {
                if self.tally.differ < SHOWN {
                    let kind = first_word(&line[..word_end(line)]);
                    self.say(Remark::Differs(kind, difference));
                }
                self.tally.differs();
            }
            Err(Mismatch::Torn(needed)) => self.no_case(Remark::Torn(needed)),
            Err(Mismatch::Unfit) => self.no_case(Remark::Unfit),
        }
    }

    // Of the line that was counted last.
    fn say(&self, remark: Remark) {
        say::at_line(self.out, self.tally.lines, remark);
    }

    fn no_case(&mut self, remark: Remark) {
        self.say(remark);
        self.tally.unread();
    }

    // A line that was not read to its end is not counted as a line.
    fn unfinished(&mut self, remark: Remark) {
        say::at_line(self.out, self.tally.lines.wrapping_add(1), remark);
        self.tally.unread();
    }
}

impl Tally {
    fn compared(&mut self) {
        self.compared = self.compared.wrapping_add(1);
    }

    fn differs(&mut self) {
        self.compared();
        self.differ = self.differ.wrapping_add(1);
    }

    fn unread(&mut self) {
        self.unread = self.unread.wrapping_add(1);
    }
}
