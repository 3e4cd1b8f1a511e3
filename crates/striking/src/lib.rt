// Demand 3: laws and the theorem; no code.
#![tactic(auto)]
