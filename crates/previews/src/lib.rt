// Laws of trying a pair; no code.
#![tactic(auto)]
