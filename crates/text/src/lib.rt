// Text: lines that are put together from words and numbers, and numbers read.
#![tactic(auto)]

// A line of words and numbers.
pub mod line;
// A number from its digits.
pub mod number;
