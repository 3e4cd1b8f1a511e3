// How many activity evaluations a flash begins: the bound in specs/, its proof in proofs/. No code.
#![tactic(auto)]
