// What a step, a run, a load or a transfer answers, as numbers and bytes that can be compared one by one.
#![tactic(auto)]

// All of an answer.
pub mod answer;
// The paper's number and values.
pub mod number;
