// The names of the forty operations.
#![tactic(auto)]

// Written and read: upper case and exact.
pub mod name;
