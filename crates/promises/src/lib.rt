// What the planner's answers promise: definitions in specs/, theorems in proofs/. There is no code.
#![tactic(auto)]
