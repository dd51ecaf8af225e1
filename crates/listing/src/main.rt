// Reads a line of A and P and a set-up text from standard input, and prints the listing or the refusal. All the work is
// the library's.
//
// Up to 65,536 bytes are read. An input that fills these is refused whatever follows: where its first line, as far as
// it was read, is not one to eight letters of A and P with an A among them and a line feed, with 401; else the text
// behind it is longer than 16,384 bytes already, with 402.
//
// The output is always long enough: no listing is longer than 22,998 bytes (`always-fits` of the crate `lister_laws`).
#![tactic(auto)]

use octets::parts;
use std::io;
use std::io::{Read, Write};

fn main(rt: HostRuntime) -> io::Result<()> {
    let mut input = [0u8; 65536];
    let n = io::copy(&mut rt.reader().take(65536), &mut &mut input[..])?;
    print(&rt, parts::piece(&input, 0, n as usize))
}

fn print(rt: &HostRuntime, input: &[u8]) -> io::Result<()> {
    let mut output = [0u8; 65536];
    match lister::listing(input, &mut output) {
        Ok(n) => io::writer(rt).write_all(parts::piece(&output, 0, n)),
        Err(lister::Short) => Ok(()),
    }
}
