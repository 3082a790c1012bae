// The listing of a program: a line for each instruction, or for a byte that begins none.
#![tactic(auto)]

// All lines, into a lent buffer.
pub mod listing;
