// The incident: a change of password on a store that takes only so many bytes, for numbers of bytes before, inside and
// behind the digest.
#![tactic(auto)]

use std::io;

mod incident;

fn main(rt: HostRuntime) -> io::Result<()> {
    incident::run(&rt)
}
