// This crate has no code: its theorems are in specs/.
#![tactic(auto)]
