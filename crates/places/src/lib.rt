// Laws of the place beside a refusal's number; no code.
#![tactic(auto)]
