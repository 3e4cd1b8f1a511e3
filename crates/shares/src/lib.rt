// Numbers over their sum are mole fractions: the law in specs/, its proof in proofs/. No code.
#![tactic(auto)]
