// Nothing to run: the worked cases of the processor's definition, as one table, are in specs/, and their proof is in proofs/.
#![tactic(auto)]
