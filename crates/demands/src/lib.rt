// What is demanded, and that it is proved: each statement in full, under the sentence that it meets. Proofs cite the crates below; no code.
#![tactic(auto)]
