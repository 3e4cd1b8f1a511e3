// Laws of distances; no code.
#![tactic(auto)]
