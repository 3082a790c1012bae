// Texts as another language has them, with answers in numbers.
#![tactic(auto)]

// A program in words.
pub mod list;
// The labels of a source.
pub mod map;
