// The table of labels that the address pass fills.
#![tactic(auto)]

// The table.
pub mod labels;
// Its entries.
pub mod entry;
