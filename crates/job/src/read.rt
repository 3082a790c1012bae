// The rule from its file, the station's bytes from standard input.
ghost use Rattle.std.specs.Prelude.{◌≡◌, ◌≤◌, take, drop, IfOk, IfSome};
ghost use Rattle.files.specs.Counts.{IsPrefixLen, bytes_read};

use crate::arguments;
use files::Cut;
use program::say::Voice;
use std::io::{Error, Read};
use std::rt::{Env, Files, Stdin};

// A rule has so many bytes, which stand at the buffer's start, and this limit.
#[derive(Clone, Copy, Debug)]
pub struct Job {
    pub length: usize,
    pub limit: u16,
}

// Why there is no job.
#[derive(Clone, Copy, Debug, PartialEq, Eq)]
pub enum NoJob {
    // the rule has so many bytes, more than the buffer and so more than a machine
    TooLong(usize),
    // it was said why
    Said,
}

pub fn read_rule<R: Env + Files>(rt: &R, voice: Voice, buffer: &mut [u8]) -> Result<Job, NoJob>
    ensures { IfOk result (λ job. IsPrefixLen job.length buffer.new) }
{
    let mut path = [0u8; 4096];
    let length = arguments::rule(rt, voice, &mut path).ok_or(NoJob::Said)?;
    let limit = arguments::limit(rt, voice).ok_or(NoJob::Said)?;
    let length = read_file(rt, voice, &path[..length], buffer)?;
    Ok(Job { length, limit })
}

// A rule that is longer than the buffer is read to its end, since the refusal has its length.
fn read_file<R: Files>(rt: &R, voice: Voice, path: &[u8], buffer: &mut [u8]) -> Result<usize, NoJob>
    ensures { IfOk result (λ length. IsPrefixLen length buffer.new) }
{
    let mut file = files::open(rt, path).map_err(|reason| unread(voice, path, reason))?;
    read_opened(&mut file, voice, path, buffer)
}

fn read_opened<F: Read>(
    file: &mut F,
    voice: Voice,
    path: &[u8],
    buffer: &mut [u8],
) -> Result<usize, NoJob>
    ensures prefix_len { IfOk result (λ length. IsPrefixLen length buffer.new) }
    // Where it is known what the file has, a rule that is found is all of that.
    ensures whole { IfOk result (λ length. IfSome (F.remaining file.old) (λ xs. take length buffer.new ≡ xs)) }
{
    let length = files::read(file, &mut *buffer).map_err(|cut| unread(voice, path, cut.reason))?;
    let rest = files::skip(file).map_err(|cut| unread(voice, path, cut.reason))?;
    if rest > 0 {
        return Err(NoJob::TooLong(length.wrapping_add(rest)));
    }
    Ok(length)
}

// Says why the rule cannot be read.
fn unread(voice: Voice, path: &[u8], reason: Error) -> NoJob {
    voice.failed(path, reason);
    NoJob::Said
}

// Each byte of input costs a step at least, so a limit can use no more bytes than its own number. Where a read failed, it was said.
pub fn read_input(
    mut input: Stdin,
    voice: Voice,
    buffer: &mut [u8],
    limit: u16,
) -> Result<usize, Cut>
    ensures prefix_len { IsPrefixLen (bytes_read result) buffer.new }
    ensures count_le_limit { bytes_read result ≤ limit }
    ensures buffer_unchanged { drop limit buffer.new ≡ drop limit buffer.old }
{
    files::read_some(&mut input, buffer, usize::from(limit)).inspect_err(|cut| voice.failed(
        b"standard input",
        cut.reason,
    ))
}
