// The mathematics of need and flow: definitions in specs/, theorems in proofs/. There is no code.
#![tactic(auto)]
