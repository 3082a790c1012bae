// What the bytes of a program begin with: an instruction of the program, or a byte that begins none.
#![tactic(auto)]

pub mod front;
