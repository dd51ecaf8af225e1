// The parts of a replay text (docs/REPLAY.md): lines and words, numbers, bytes in hex digits, and a line's arguments.
//
// Any bytes can be asked. Nothing here knows of a terminal.
#![tactic(auto)]

pub mod arguments;
pub mod hex;
pub mod letters;
pub mod shown;
pub mod words;

// No row is as long as this.
const MOST: usize = 9223372036854775808;
