// Laws of a queue of questions under one allowance; no code.
#![tactic(auto)]
