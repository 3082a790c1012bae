// The two arguments; more are ignored.
ghost use Rattle.std.specs.Prelude.{IfSome};
ghost use Rattle.files.specs.Counts.{IsPrefixLen};

use crate::say;
use program::say::Voice;
use std::env::FillError;
use std::io::Error;
use std::rt::Env;
use text::number::number;

// Where none is given, as document 01 has it for a fresh machine.
const LIMIT: u16 = 1024;

// The system's number for a name that is too long.
const NAME_TOO_LONG: i32 = 36;

// The path of the rule's file and its length, or nothing after it is said why there is none.
pub fn rule<R: Env>(rt: &R, voice: Voice, path: &mut [u8]) -> Option<usize>
    ensures { IfSome result (λ length. IsPrefixLen length path.new) }
{
    match rt.arg(1, path) {
        Ok(0) | Err(FillError::NotPresent) => {
            say::usage(voice);
            None
        }
        Ok(length) => Some(length),
        Err(FillError::TooLong) => {
            voice.failed(b"RULE", Error::from_raw_os_error(NAME_TOO_LONG));
            None
        }
    }
}

// A limit that is not there counts as empty. Where what is there is none, it is said.
pub fn limit<R: Env>(rt: &R, voice: Voice) -> Option<u16> {
    let mut text = [0u8; 4096];
    match rt.arg(2, &mut text) {
        Ok(0) | Err(FillError::NotPresent) => Some(LIMIT),
        Ok(length) => read_limit(voice, &text[..length]),
        Err(FillError::TooLong) => {
            say::no_limit(voice, b"that");
            None
        }
    }
}

fn read_limit(voice: Voice, text: &[u8]) -> Option<u16> {
    let limit = number(text);
    if limit.is_none() {
        say::no_limit(voice, text);
    }
    limit
}
