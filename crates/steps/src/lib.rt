// Nothing to run: what holds of every step and every run of the machine. The statement that a run is stepping until it ends is in specs/; it and the
// other laws are proved in proofs/.
#![tactic(auto)]
