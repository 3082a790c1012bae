// The processor: the machine record, and the methods that take a machine and hand the next machine back.
#![tactic(auto)]

// The record, fresh, and its flags.
pub mod machine;
// What the methods answer.
pub mod answer;
// Programs into memory.
pub mod load;
// Until halted, refused or at the limit.
pub mod run;
// One instruction.
pub mod step;
// The marked bytes of an image into memory.
pub mod transfer;
// Up to so many instructions, one after the other: what step and run are made of.
mod turns;
// What an effect writes.
mod write;
