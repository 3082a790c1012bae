// What a case is made of: bytes and numbers at a place, bytes that change a memory or a buffer; and where two answers first part.
#![tactic(auto)]

// Where two lists first differ.
pub mod apart;
// Bytes laid over a memory or a buffer.
pub mod lay;
// Items that have a number.
pub mod number;
// The marked bytes of an image over others.
pub mod overlay;
// Bytes and numbers at a place.
pub mod read;
