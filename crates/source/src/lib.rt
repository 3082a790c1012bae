// The source of a rule, line by line: what is read of a line, and what it means to the address pass.
#![tactic(auto)]

// The part of a line that counts.
pub mod line;
// Words, and how a line begins.
pub mod word;
// What a line means.
pub mod meaning;
