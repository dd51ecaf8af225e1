// The two devices of a partition: the keyboard's queue and the screen.
#![tactic(auto)]

pub mod keyboard;
pub mod screen;
