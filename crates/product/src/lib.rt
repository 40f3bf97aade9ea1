// What the composed model's steps and runs are in its parts: definitions in specs/, theorems in proofs/. There is no code in this crate.
#![tactic(auto)]
