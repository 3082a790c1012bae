// What the programs read and write, over std's readers and writers. A read that fails is told apart from an end: a rule or a reading that could not be
// read is never taken for an empty one.
#![tactic(auto)]

ghost use Rattle.std.specs.Prelude.{◌≡◌, ◌<◌, ◌≤◌, min, length, take, drop, IfOk, OnOk};
ghost use Rattle.std.specs.Io.KnownBytes.{Appends, Consumes, IsAtEnd};
ghost use Rattle.files.specs.Counts.{IsPrefixLen, IsCutAtStart, bytes_read};

use std::io::{Error, ErrorKind, Read, Write};
use std::rt::Files;
use std::str::from_utf8;
use std::{fs, io};

// A read failed, and so many bytes were read before it.
#[derive(Clone, Copy, Debug)]
pub struct Cut {
    pub count: usize,
    pub reason: Error,
}

// What fails before the first read.
impl From<Error> for Cut {
    ghost from_gives = { IsCutAtStart };

    fn from(reason: Error) -> Cut {
        Cut { count: 0, reason }
    }
}

// The file of this name, to be read. A name is text: no other can be opened.
pub fn open<R: Files>(rt: &R, path: &[u8]) -> io::Result<R::File> {
    let name = from_utf8(path).map_err(|_| Error::new(
        ErrorKind::InvalidFilename,
        "the name is not UTF-8",
    ))?;
    fs::open(rt, name)
}

// Reads until the buffer is full, the input ends or a read fails. The bytes stand at the buffer's start.
pub fn read<R: Read>(file: &mut R, buffer: &mut [u8]) -> Result<usize, Cut>
    ensures prefix_len { IsPrefixLen (bytes_read result) buffer.new }
    // Where it is known what there is to read, these are the next bytes of it.
    ensures next { Consumes (R.remaining file.old) (R.remaining file.new) (take (bytes_read result) buffer.new) }
    // What does not fill the buffer is all that there was, unless a read failed.
    ensures end { IfOk result (λ count. count < length buffer.new → IsAtEnd (R.remaining file.new)) }
{
    let mut count: usize = 0;
    while count < buffer.len() {
        match file.read(&mut buffer[count..]) {
            Ok(0) => break,
            Ok(more) => count += more,
            Err(reason) => return Err(Cut { count, reason }),
        }
    }
    Ok(count)
}

// The same, of so many bytes at most; those of the buffer behind them stay as they are.
pub fn read_some<R: Read>(file: &mut R, buffer: &mut [u8], most: usize) -> Result<usize, Cut>
    ensures prefix_len { IsPrefixLen (bytes_read result) buffer.new }
    ensures count_le_most { bytes_read result ≤ most }
    ensures buffer_unchanged { drop most buffer.new ≡ drop most buffer.old }
    ensures next { Consumes (R.remaining file.old) (R.remaining file.new) (take (bytes_read result) buffer.new) }
    ensures end { IfOk result (λ count. count < min most (length buffer.new) → IsAtEnd (R.remaining file.new)) }
{
    let end = most.min(buffer.len());
    read(file, &mut buffer[..end])
}

// Reads to the end and keeps nothing. A count that is too large stops at the largest.
pub fn skip<R: Read>(file: &mut R) -> Result<usize, Cut>
    // None were read only where there were none, unless a read failed.
    ensures none { IfOk result (λ count. count ≡ 0 → IsAtEnd (R.remaining file.old)) }
{
    let mut space = [0u8; 65536];
    let mut count: usize = 0;
    // a proved loop has to end, and nothing says that a file does: so many turns no run uses up
    for _ in 0..u64::MAX {
        match read(file, &mut space) {
            Ok(0) => break,
            Ok(more) => count = count.saturating_add(more),
            Err(cut) => {
                return Err(Cut {
                    count: count.saturating_add(cut.count),
                    ..cut
                });
            }
        }
    }
    Ok(count)
}

// Writes the bytes, all of them, or answers why it could not.
pub fn write<W: Write>(file: &mut W, bytes: &[u8]) -> io::Result<()>
    ensures { OnOk result (Appends (W.contents file.old) (W.contents file.new) bytes.now) }
{
    file.write_all(bytes)
}
