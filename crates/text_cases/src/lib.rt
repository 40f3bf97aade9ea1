// Worked cases of the model text: definitions in specs/, theorems in proofs/. There is no code in this crate.
#![tactic(auto)]
