// A machine that a program in another language keeps as its record of 296 bytes, and what is done with it where it lies.
#![tactic(auto)]

// Fresh, loaded, stepped, run, and given an image's bytes.
pub mod fresh;
pub mod load;
pub mod run;
pub mod step;
pub mod transfer;
// The machine that lies in a record.
mod held;
// The version of the record.
pub mod version;

// What is answered to bytes that are no machine of this build; then nothing is changed.
pub const NONE: usize = 90;
