// What a link is, that exactly these are read, why and where a text is none, and that what is written reads back: definitions (specs/) and laws (proofs/) about `links`, and no code.
#![tactic(auto)]
