// What a program is given. The bytes that were read stand at the buffer's start.
ghost use Rattle.std.specs.Prelude.{◌≡◌};
ghost use Rattle.files.specs.Counts.{IsPrefixLen, bytes_read};
ghost use Rattle.program.specs.declared.input.NotWhole.TheVariants.{Failed};
ghost use Rattle.program.specs.Kept.{bytes_kept};

use crate::say::Voice;
use files::Cut;
use std::env::FillError;
use std::io;
use std::io::{Error, ErrorKind};
use std::rt::{Env, Files, Stdin};

// Why a file is not there whole.
#[derive(Clone, Copy, Debug)]
pub enum NotWhole {
    // it cannot be opened, or a read failed
    Failed(Cut),
    // so many bytes fill the buffer, and there are more
    TooLong(usize),
}

impl From<Cut> for NotWhole {
    ghost from_gives = { λ cut why. why ≡ Failed cut };

    fn from(cut: Cut) -> NotWhole {
        NotWhole::Failed(cut)
    }
}

// As much as fits. Where a read failed, it was said.
pub fn standard_input(mut input: Stdin, voice: Voice, buffer: &mut [u8]) -> Result<usize, Cut>
    ensures { IsPrefixLen (bytes_read result) buffer.new }
{
    files::read(&mut input, buffer).inspect_err(|cut| voice.failed(b"standard input", cut.reason))
}

// Whether there is an i-th argument, however long it is.
pub fn has_argument<R: Env>(rt: &R, i: usize) -> bool {
    let mut none = [0u8; 1];
    !matches!(rt.arg(i, &mut none), Err(FillError::NotPresent))
}

// As much as fits of the file that the i-th argument names.
pub fn argument<R: Env + Files>(rt: &R, i: usize, buffer: &mut [u8]) -> Result<usize, Cut>
    ensures { IsPrefixLen (bytes_read result) buffer.new }
{
    let mut file = open_argument(rt, i)?;
    files::read(&mut file, buffer)
}

// The same, but a file that does not fit is none, so that nothing in it is taken for something shorter.
pub fn whole_argument<R: Env + Files>(
    rt: &R,
    i: usize,
    buffer: &mut [u8],
) -> Result<usize, NotWhole>
    ensures { IsPrefixLen (bytes_kept result) buffer.new }
{
    let mut file = open_argument(rt, i).map_err(Cut::from)?;
    let count = files::read(&mut file, buffer)?;
    // where a read fails behind a full buffer, nothing says that there is more
    let rest = files::skip(&mut file).unwrap_or_else(|cut| cut.count);
    if rest > 0 {
        return Err(NotWhole::TooLong(count));
    }
    Ok(count)
}

// The file that the i-th argument names.
fn open_argument<R: Env + Files>(rt: &R, i: usize) -> io::Result<R::File> {
    let mut path = [0u8; 4096];
    match rt.arg(i, &mut path) {
        Ok(length) => files::open(rt, &path[..length]),
        Err(_) => Err(Error::from(ErrorKind::NotFound)),
    }
}
