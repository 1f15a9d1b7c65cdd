// When each of the refusals 1 to 8 is given: definitions (specs/) and laws (proofs/) about `bencode`'s outcome, and no code.
#![tactic(auto)]
