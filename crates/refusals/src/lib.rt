// Which numbers refuse a call: laws and the theorem; no code.
#![tactic(auto)]
