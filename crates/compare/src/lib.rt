// How two answers compare.
#![tactic(auto)]

// The first place where they part.
pub mod verdict;
