// The forty operations: byte, form and length.
#![tactic(auto)]

// The operations, and their bytes.
pub mod operation;
// The operands that an operation takes, and how long that makes the instruction.
pub mod form;
