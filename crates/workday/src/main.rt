// A working day on a terminal of three partitions, 0 and 2 active and 1 passive: keys and logins, a sheet loaded,
// changed and flushed, a password changed, the screen, and the end of the shift. Every call is printed with its number;
// `stdout` beside src/ has what has to come out, worked out by hand.
#![tactic(auto)]

use std::io;

mod day;
mod say;

fn main(rt: HostRuntime) -> io::Result<()> {
    day::run(&rt)
}
