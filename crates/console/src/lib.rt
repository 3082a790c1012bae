// "The host's console keeps one machine record and lends it to be stepped in its own storage."
#![tactic(auto)]

// What the console is told: the answer, and the new place and number.
pub mod report;
// The machine where it lies: stepped, run and loaded behind a reference.
pub mod lent;
// The machine in the console's own storage, for callers that lend nothing.
pub mod kept;
