// The samples (a) to (v) of docs/FORMAT.md: the list in specs/Samples.antt, the one test in proofs/Test.antt. No code.
#![tactic(auto)]
