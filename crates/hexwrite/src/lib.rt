// A rule as Intel HEX, from an image and its marks.
#![tactic(auto)]

// All records, into a lent buffer.
pub mod write;
// The runs of set bytes.
mod runs;
