// Rows of bytes: what several crates read, write and compare, each thing once.
//
// No function asks anything of its arguments: what would lie behind the end is not there to be read and is not written,
// and no sum wraps.
#![tactic(auto)]

pub mod numbers;
pub mod parts;
pub mod search;
pub mod span;
