// Pooled drums: laws of the whole call; no code.
#![tactic(auto)]
