// One line of a listing, written.
#![tactic(auto, using(text::proofs::LineLaws::appended_twice))]

// The line of what the bytes begin with.
pub mod line;
// The line at a place of the program.
pub mod row;
// The lines at all places.
pub mod rows;
