// A list read page by page, whatever it is a list of: what a caller does, and what that yields. Definitions (specs/) and laws (proofs/), and no code.
#![tactic(auto)]
