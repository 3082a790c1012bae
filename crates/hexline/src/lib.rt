// One line of Intel HEX: a record, read and written.
#![tactic(auto)]

// What a line is.
pub mod record;
// The line of a record.
pub mod line;
// The bytes that digits spell.
pub mod spelled;
// Digits read.
mod spell;
// The sum of a record's bytes.
mod sum;
