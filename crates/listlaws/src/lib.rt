// Laws of the listing's routine, called twice: nothing that runs.
#![tactic(auto)]
