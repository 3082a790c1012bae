// An instruction as another language has it, in numbers.
#![tactic(auto)]

// Its bytes as numbers, and from numbers.
pub mod decode;
pub mod encode;
// Operands as two numbers.
mod operands;
// How many opcodes are known.
pub mod operations;
