// Laws of floor and lab sheets; no code.
#![tactic(auto)]
