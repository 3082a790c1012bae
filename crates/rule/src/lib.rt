// A rule, run from its bytes to its verdict.
#![tactic(auto)]

// The line that says how a rule ended.
pub mod verdict;
// A rule with the station's bytes.
pub mod rule;
