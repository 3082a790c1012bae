// A rule from Intel HEX, onto a lent image and its marks.
#![tactic(auto)]

// What a reading answers.
pub mod answer;
// The lines one after the other.
pub mod read;
// The image and the marks that the lines are read onto.
mod sheet;
