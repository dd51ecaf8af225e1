// This crate has no code: its theorems are in specs/Points.antt.
#![tactic(auto)]
