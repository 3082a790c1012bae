// A job, as a program is given it: RULE [LIMIT] are its arguments, and standard input has the station's bytes. What is wrong with them is said on standard
// error, behind the program's name, which keeps what a file is called from being read as a verdict.
#![tactic(auto)]

// The path and the limit.
mod arguments;
// The rule from its file, the station's bytes from standard input.
pub mod read;
// Why there is no job.
mod say;
