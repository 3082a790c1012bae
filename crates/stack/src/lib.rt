// Nothing to run: demand 3, how far down a deep stack can write. The statement is in specs/, clause by clause; it is proved in proofs/.
#![tactic(auto)]
