// A list of cases, line by line, as oracle/FORMAT.md has them.
#![tactic(auto)]

// Lines of text to cases.
pub mod line;
// The cases of opcodes, names and flags.
pub mod table;
