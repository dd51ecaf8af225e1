// Asks images and password files, good and damaged ones, and prints what is found: a line for each case.
//
// A case, on standard input: eight bytes (kind 'I' or 'P', lengths of title and query, 0, length of the data in four
// bytes, lowest first), title, query, data. tools/make-store-cases makes them, and the lines that are expected.
// Up to 65,536 bytes are read.
#![tactic(auto)]

ghost use Rattle.std.specs.Prelude.{◌≡◌, ◌<◌, ◌-◌, length, IfOk};

use octets::{numbers, parts};
use std::io;
use std::io::{Read, Write};

fn main(rt: HostRuntime) -> io::Result<()> {
    let mut input = [0u8; 65536];
    let n = io::copy(&mut rt.reader().take(65536), &mut &mut input[..])?;
    cases(&rt, parts::piece(&input, 0, n as usize))
}

fn cases(rt: &HostRuntime, input: &[u8]) -> io::Result<()> {
    let mut rest = input;
    while !rest.is_empty() {
        rest = case(rt, rest)?;
    }
    Ok(())
}

// Prints the line of the first case, and answers what stands behind it.
fn case<'a>(rt: &HostRuntime, input: &'a [u8]) -> io::Result<&'a [u8]>
    requires { 0 < length input.now }
    ensures { IfOk result (λ rest. length rest.now < length input.now) }
{
    let (head, rest) = cut(input, 8);
    let (title, rest) = cut(rest, usize::from(byte(head, 1)));
    let (query, rest) = cut(rest, usize::from(byte(head, 2)));
    let (data, rest) = cut(rest, numbers::read32(head, 4) as usize);
    say(rt, title)?;
    say(rt, b": ")?;
    if byte(head, 0) == b'I' {
        image_line(rt, data, query)?;
    } else {
        passwords_line(rt, data, query)?;
    }
    Ok(rest)
}

// The first n bytes, fewer where there are no more, and the rest.
fn cut(row: &[u8], n: usize) -> (&[u8], &[u8])
    ensures { length result.1.now ≡ length row.now - n }
{
    row.split_at(n.min(row.len()))
}

fn byte(head: &[u8], at: usize) -> u8 {
    head.get(at).copied().unwrap_or(0)
}

fn image_line(rt: &HostRuntime, bytes: &[u8], path: &[u8]) -> io::Result<()> {
    if image::good(bytes) {
        say(rt, b"image good, ")?;
    } else {
        say(rt, b"image bad, ")?;
    }
    say(rt, path)?;
    match image::find(bytes, path) {
        Some(contents) => {
            number(rt, b" at ", contents.place)?;
            number(rt, b" length ", contents.length)?;
        }
        None => say(rt, b" missing")?,
    }
    say(rt, b"\n")
}

fn passwords_line(rt: &HostRuntime, bytes: &[u8], name: &[u8]) -> io::Result<()> {
    if passwords::well_formed(bytes) {
        say(rt, b"passwords well formed, ")?;
    } else {
        say(rt, b"passwords malformed, ")?;
    }
    say(rt, name)?;
    let found = passwords::find(bytes, name);
    match found.entry {
        Some(entry) => {
            number(rt, b" record ", entry.number)?;
            number(rt, b", digest at ", entry.digest)?;
            say(rt, b", ")?;
        }
        None => say(rt, b" nowhere, ")?,
    }
    number(rt, b"", found.count)?;
    say(rt, b" read\n")
}

fn number(rt: &HostRuntime, what: &[u8], n: usize) -> io::Result<()> {
    say(rt, what)?;
    print!(rt; "{n}")
}

fn say(rt: &HostRuntime, text: &[u8]) -> io::Result<()> {
    io::writer(rt).write_all(text)
}
