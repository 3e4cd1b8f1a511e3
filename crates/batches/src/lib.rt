// Laws of many feeds at one temperature; no code.
#![tactic(auto)]
