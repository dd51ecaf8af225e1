// The lines that the listing program prints, written into a row.
//
// An `Output` is a row and a place in it. Each method writes its text from there on and moves the place behind it. What
// does not fit is not written, and is counted all the same: a row of no bytes serves to learn how long a text is.
#![tactic(auto)]

mod output;
mod put;

pub use output::Output;
pub use put::Entry;
