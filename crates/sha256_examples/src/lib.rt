// This crate has no code: its theorems are in specs/Examples.antt.
#![tactic(auto)]
