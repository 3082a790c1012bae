// What the programs share: how they read what they are given, and how they say what came of it. What is wrong is said on standard error, behind the
// program's name, which keeps what a file is called from being read as a verdict.
#![tactic(auto)]

// Standard input, and the files that arguments name.
pub mod input;
// Standard output for the programs of the gate, which do not ask whether it was written.
pub mod print;
// What the other programs write, and where they could not, why.
pub mod say;
