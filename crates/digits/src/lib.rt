// Bytes as text.
#![tactic(auto)]

// Hexadecimal digits.
pub mod digit;
// A text of digits to bytes.
pub mod unhex;
