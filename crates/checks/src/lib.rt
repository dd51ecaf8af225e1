//! Why a call or a start is refused, and the number that is answered for it.
#![tactic(auto)]

mod refusal;

pub use refusal::{Refusal, number_behind, refuse};
