// Scans of a text: where bytes of a class stand.
#![tactic(auto)]

// Classes of bytes.
pub mod class;
// The first byte of a class, the last, and the end of a line.
pub mod scan;
