// The terminal's calls under names that Rust and C link, for the measurements of bench/.
//
// An exported function can neither take nor hand back a terminal, so each of these starts one, makes a call `turns`
// times, each on the terminal that the last one left, and answers the last one's number (that of the start, where
// there are no turns). Two runs with different numbers of turns then tell what one turn costs.
//
// Stays: the same loop in each, since each call has an exported function of its own, and of a step that is passed in
// and writes what was lent no contract could say what it wrote (docs/DECISIONS.md, "Forms that stay").
#![tactic(auto)]

mod account_calls;
mod device_calls;
mod memory_calls;
mod scene;
mod starts;
mod stop_calls;
