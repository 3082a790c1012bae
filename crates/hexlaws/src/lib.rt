// Laws of Intel HEX, read and written: nothing that runs.
#![tactic(auto)]
