// The address pass: the labels of a source and their addresses.
#![tactic(auto)]

// The pass over all lines of the source.
pub mod pass;
// What goes from line to line.
mod stand;
// What one line does.
mod turn;
// A refused source in words.
pub mod verdict;
