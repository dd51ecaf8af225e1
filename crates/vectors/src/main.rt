// Prints the SHA-256 digests of messages whose digests are known from elsewhere, a line for each: what the message is,
// and its digest in hexadecimal. The file `stdout` beside src/ has what other people's code makes of the same messages.
#![tactic(auto)]

use std::io;
use std::io::Write;

fn main(rt: HostRuntime) -> io::Result<()> {
    published(&rt)?;
    million(&rt)?;
    patterns(&rt)
}

// NIST's examples for FIPS 180-4: a message of one block, and one of two.
fn published(rt: &HostRuntime) -> io::Result<()> {
    line(rt, b"abc", b"abc")?;
    line(
        rt,
        b"the 448-bit message",
        b"abcdbcdecdefdefgefghfghighijhijkijkljklmklmnlmnomnopnopq",
    )
}

fn million(rt: &HostRuntime) -> io::Result<()> {
    let message = [b'a'; 1000000];
    line(rt, b"1000000 times a", &message)
}

// Lengths on both sides of every place where the padding changes its shape, and two long ones.
const LENGTHS: [usize; 17] = [
    0, 1, 54, 55, 56, 57, 63, 64, 65, 111, 112, 119, 120, 127, 128, 1000, 65536,
];

fn patterns(rt: &HostRuntime) -> io::Result<()> {
    let mut bytes = [0u8; 65536];
    fill(&mut bytes);
    for n in LENGTHS {
        pattern(rt, &bytes, n)?;
    }
    Ok(())
}

// Byte i becomes (i * 167 + 13) mod 251. 251 is a prime, so two blocks of 64 bytes are alike only 251 blocks apart.
fn fill(bytes: &mut [u8; 65536]) {
    for (i, byte) in bytes.iter_mut().enumerate() {
        *byte = ((i * 167 + 13) % 251) as u8;
    }
}

// The line of the first n bytes of the pattern, which has as many.
fn pattern(rt: &HostRuntime, bytes: &[u8], n: usize) -> io::Result<()> {
    print!(rt; "pattern of length {n}")?;
    line(rt, b"", &bytes[..n.min(bytes.len())])
}

fn line(rt: &HostRuntime, what: &[u8], message: &[u8]) -> io::Result<()> {
    io::writer(rt).write_all(what)?;
    io::writer(rt).write_all(b": ")?;
    for byte in sha256::digest(message) {
        print!(rt; "{byte:02x}")?;
    }
    println!(rt; "")
}
