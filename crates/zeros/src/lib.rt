// Floats up to the sign of zero: definitions in specs/, laws in proofs/. No code.
#![tactic(auto)]
