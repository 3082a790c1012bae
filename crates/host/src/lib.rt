// NanoCore for programs in other languages: C functions over numbers and bytes. A machine crosses as a record of 296 bytes. Each function is one call of the
// crate that has its body, its definition and its proof: a library's exported functions have to stand in one crate.
#![tactic(auto)]

// What this build is.
pub mod about;
// A machine: fresh, loaded, stepped, run, and given an image's bytes.
pub mod machine;
// An instruction, decoded and encoded.
pub mod instructions;
// A program in words, and the labels of a source.
pub mod texts;
// An image and its marks, from Intel HEX and as Intel HEX.
pub mod hex;
