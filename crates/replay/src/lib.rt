// A case is replayed: the machine answers what another machine answered before, and everything that a caller sees is compared. The case's bytes are
// laid out in oracle/FORMAT.md.
#![tactic(auto)]

// Where things stand in the case of a step, a run or a load; its verdict.
pub mod case;
