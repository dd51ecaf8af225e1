//! The set-up text byte by byte: gaps and tokens. Every function takes the text and a place in it, and answers for
//! every text and every place, also behind the end. A comment is part of a gap and of nothing else.
#![tactic(auto)]

pub mod gaps;
mod runs;
pub mod tokens;

/// Which bytes a run is made of.
// Stays an enum: a test that is lent as a closure takes a contract over all tests, and says no more than these three
// names.
#[derive(Clone, Copy, Debug, PartialEq, Eq)]
enum Class {
    Digit,
    Bare,
    Quoted,
}
