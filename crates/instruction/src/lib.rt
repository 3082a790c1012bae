// An instruction: its operands, read and written as bytes.
#![tactic(auto)]

// What follows an operation.
pub mod operands;
// An instruction from three bytes.
pub mod decode;
// Three bytes from an instruction.
pub mod encode;
