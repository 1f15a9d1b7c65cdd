// Demand 3: what the tables and every answer are after any sequence of calls, by the history of calls and answers alone.
// Definitions (specs/) and laws (proofs/) about `yard_tables`' step, and no code.
#![tactic(auto)]
