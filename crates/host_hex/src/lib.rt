// Intel HEX as another language has it, with answers in numbers.
#![tactic(auto)]

// From a text onto an image and its marks.
pub mod read;
// From an image and its marks to a text.
pub mod write;
