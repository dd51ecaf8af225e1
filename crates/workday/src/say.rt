// What the program prints: a line for each call, with what was asked, the number and, where it says something, the
// count.
use std::io;
use terminal::Answer;

// One call: what it was, and its number.
pub fn line(rt: &HostRuntime, what: &str, answer: Answer) -> io::Result<()> {
    let number = answer.number;
    println!(rt; "{what}: {number}")
}

// One call: what it was, its number and its count.
pub fn counted(rt: &HostRuntime, what: &str, answer: Answer) -> io::Result<()> {
    let number = answer.number;
    let count = answer.count;
    println!(rt; "{what}: {number} count {count}")
}

// Bytes, between quotes; one that does not print shows as '.'.
pub fn bytes(rt: &HostRuntime, what: &str, shown: &[u8]) -> io::Result<()> {
    print!(rt; "    {what} \"")?;
    for &byte in shown {
        let sign = printable(byte);
        print!(rt; "{sign}")?;
    }
    println!(rt; "\"")
}

fn printable(byte: u8) -> char {
    if matches!(byte, b' '..=b'~') {
        return byte as char;
    }
    '.'
}
