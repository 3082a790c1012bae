// A machine as bytes: the record by which it crosses to another language.
#![tactic(auto)]

// The record, read and written.
pub mod record;
// Numbers of four bytes.
mod four;
