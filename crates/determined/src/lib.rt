// This crate has no code: its theorems are in specs/ and proofs/.
#![tactic(auto)]
