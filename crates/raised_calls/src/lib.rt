// Raising a limit, in each call: laws; no code.
#![tactic(auto)]
