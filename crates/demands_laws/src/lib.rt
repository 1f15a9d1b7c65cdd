// What the statements of `demands` cite and no crate below has: the words that they share (specs/) and laws (proofs/), and no code.
#![tactic(auto)]
