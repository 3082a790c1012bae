// One turn of the machine: the instruction at pc is fetched, decoded and carried out, or refused.
#![tactic(auto)]

// The forty operations at work.
pub mod execute;
// From pc to the operation and byte two; an operation that has a byte three reads it itself.
pub mod fetch;
