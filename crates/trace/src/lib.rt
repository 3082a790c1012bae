// A run followed step by step: the line that shows a machine between two steps, and the run taken one look at a time.
#![tactic(auto)]

// The line of a machine.
pub mod line;
// One look of a run.
pub mod look;
// Looks until one ends.
pub mod run;
