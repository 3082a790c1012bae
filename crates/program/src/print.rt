// What the programs of the gate print. Whether it was written is not asked: what is missing differs from what the gate expects.
use std::rt::{Env, Stdout};

// Bytes as they are: a name from an argument need not be UTF-8.
pub fn text(mut out: Stdout, bytes: &[u8]) {
    let _ = files::write(&mut out, bytes);
}

// The i-th argument, nothing where there is none.
pub fn argument<R: Env>(rt: &R, out: Stdout, i: usize) {
    let mut space = [0u8; 4096];
    if let Ok(length) = rt.arg(i, &mut space) {
        text(out, &space[..length]);
    }
}
