// Whether a rule's instructions are in plain spelling.
#![tactic(auto)]

// The check of a rule, into a lent buffer.
pub mod check;
