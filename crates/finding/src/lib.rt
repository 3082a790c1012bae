// What is said of the spelling at one place of a rule.
#![tactic(auto)]

// The line of an instruction that is not in plain spelling.
pub mod line;
// What stands at a place, and how it counts.
pub mod finding;
// What stands at all places.
pub mod findings;
