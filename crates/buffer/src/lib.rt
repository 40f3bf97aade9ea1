// Room in a lent buffer, and what a writer leaves in it: definitions in specs/, theorems in proofs/. There is no code in this crate.
#![tactic(auto)]
