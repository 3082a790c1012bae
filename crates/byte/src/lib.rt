// Bytes as the processor computes with them: a result with the bit that leaves it, and the flags byte.
#![tactic(auto)]

// Sums, differences, products, quotients and remainders.
pub mod arithmetic;
// Shifts and rotations by one.
pub mod shift;
// The flags byte.
pub mod flags;

// A byte and the bit that left it: the `(u8, bool)` that Rust's `overflowing_*` give.
#[derive(Clone, Copy)]
pub struct Carried {
    pub value: u8,
    pub carry: bool,
}
