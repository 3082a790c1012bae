// What reading a rule from Intel HEX came to, for whoever sent it.
#![tactic(auto)]

// How many bytes are set.
pub mod marks;
// The line that says what came of it.
pub mod verdict;
