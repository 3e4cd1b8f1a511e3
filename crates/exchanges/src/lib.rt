// Exchanged words of a book: the law in specs/, its proof in proofs/. No code.
#![tactic(auto)]
