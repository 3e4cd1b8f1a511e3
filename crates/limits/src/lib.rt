// Raising a limit of a question: laws and the theorem; no code.
#![tactic(auto)]
