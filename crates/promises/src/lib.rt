// This crate has no code: its definitions are in specs/, its theorems there and in proofs/.
#![tactic(auto)]
