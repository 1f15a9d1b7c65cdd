// What a week's file is, that exactly these are read and written, and why and where another is refused: definitions (specs/) and laws (proofs/) about `week`, and no code.
#![tactic(auto)]
