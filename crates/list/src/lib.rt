// The clause list of a model and a bound: definitions in specs/, theorems in proofs/. There is no code in this crate.
#![tactic(auto)]
