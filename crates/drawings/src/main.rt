// Draws runs of bytes on screens and prints each screen whole: 25 lines of 80 cells between bars, and before them what
// was drawn, how many cells a random write moved and where the cursor stands. A cell that does not print shows as '.'.
// The file `stdout` beside src/ has what a model of its own (tests/drawings) makes of the same runs.
#![tactic(auto)]

use devices::screen::{self, CELLS, COLUMNS};
use std::io;
use std::io::Write;

// A screen and a cell.
const LETTERS: usize = CELLS + 1;

fn main(rt: HostRuntime) -> io::Result<()> {
    let mut cells = [0u8; CELLS];
    let mut letters = [0u8; LETTERS];
    fill(&mut letters);
    from_the_start(&rt, &mut cells)?;
    control_bytes(&rt, &mut cells)?;
    at_the_edges(&rt, &mut cells, &letters)?;
    over_the_end(&rt, &mut cells, &letters)?;
    notices(&rt, &mut cells, &letters)?;
    random(&rt, &mut cells, &letters)
}

// The letters A to Z, over and over.
fn fill(letters: &mut [u8; LETTERS]) {
    for (i, letter) in letters.iter_mut().enumerate() {
        *letter = b'A' + (i % 26) as u8;
    }
}

fn from_the_start(rt: &HostRuntime, cells: &mut [u8; CELLS]) -> io::Result<()> {
    draw(rt, cells, b"nothing", b"", 0, b"")?;
    draw(rt, cells, b"a word", b"", 0, b"VIRPULENS")?;
    draw(rt, cells, b"lines", b"", 0, b"one\ntwo\n\nfour")?;
    draw(rt, cells, b"a word further on", b"", 1000, b"VIRPULENS")
}

fn control_bytes(rt: &HostRuntime, cells: &mut [u8; CELLS]) -> io::Result<()> {
    draw(rt, cells, b"13 goes to column 0", b"", 0, b"abcdef\rXY")?;
    draw(rt, cells, b"13 at column 0", b"", 160, b"\r\rA\r")?;
    draw(
        rt,
        cells,
        b"8 goes back and erases nothing",
        b"",
        0,
        b"abc\x08\x08Z\x08",
    )?;
    draw(rt, cells, b"8 at column 0 stays", b"", 0, b"abc\n\x08\x08d")?;
    draw(
        rt,
        cells,
        b"8 in the first cell stays",
        b"",
        0,
        b"\x08\x08\x08a",
    )?;
    draw(
        rt,
        cells,
        b"other bytes are placed",
        b"",
        0,
        b"a\x00b\x7fc\x80d\xffe\x1bf\x09g\x0bh\x0ci\x07",
    )
}

fn at_the_edges(
    rt: &HostRuntime,
    cells: &mut [u8; CELLS],
    letters: &[u8; LETTERS],
) -> io::Result<()> {
    let full = &letters[..1999];
    draw(rt, cells, b"column 79", b"", 79, b"ab")?;
    draw(rt, cells, b"column 79, then 10", b"", 79, b"a\nb")?;
    draw(rt, cells, b"column 79, then 13 and 8", b"", 79, b"a\r\x08b")?;
    draw(rt, cells, b"row 23, column 79", full, 1919, b"a")?;
    draw(rt, cells, b"10 on row 23", full, 1900, b"\n")
}

fn over_the_end(
    rt: &HostRuntime,
    cells: &mut [u8; CELLS],
    letters: &[u8; LETTERS],
) -> io::Result<()> {
    let full = &letters[..1999];
    draw(rt, cells, b"1,999 letters", b"", 0, full)?;
    draw(rt, cells, b"2,000 letters", b"", 0, &letters[..CELLS])?;
    draw(rt, cells, b"2,001 letters", b"", 0, letters)?;
    draw(rt, cells, b"10 on row 24", full, 1925, b"\n")?;
    draw(rt, cells, b"the last cell, then 10", full, 1999, b"a\n")?;
    draw(
        rt,
        cells,
        b"10 three times on row 24",
        full,
        1990,
        b"\n\n\nabc",
    )?;
    draw(
        rt,
        cells,
        b"thirty lines",
        b"",
        0,
        b"1\n2\n3\n4\n5\n6\n7\n8\n9\n10\n11\n12\n13\n14\n15\n16\n17\n18\n19\n20\n\
        21\n22\n23\n24\n25\n26\n27\n28\n29\n30",
    )
}

// What shutdown writes: a message, then 10 and the notice. A message of a whole row leaves an empty one behind it.
fn notices(rt: &HostRuntime, cells: &mut [u8; CELLS], letters: &[u8; LETTERS]) -> io::Result<()> {
    let full = &letters[..1999];
    draw(rt, cells, b"a notice", b"", 0, b"DOOR OPEN\nSYSTEM HALTED")?;
    draw(
        rt,
        cells,
        b"a notice behind a whole row",
        &letters[..COLUMNS],
        80,
        b"\nSYSTEM HALTED",
    )?;
    draw(
        rt,
        cells,
        b"a notice on the last row",
        full,
        1930,
        b"\nSYSTEM HALTED",
    )
}

fn random(rt: &HostRuntime, cells: &mut [u8; CELLS], letters: &[u8; LETTERS]) -> io::Result<()> {
    place(rt, cells, b"random write", 700, 9, b"VIRPULENS")?;
    place(
        rt,
        cells,
        b"random write of 8, 10 and 13",
        0,
        3,
        b"\x08\x0a\x0d",
    )?;
    place(
        rt,
        cells,
        b"random write of five in the last cell",
        1999,
        5,
        b"abcde",
    )?;
    place(rt, cells, b"random write behind the end", 2000, 5, b"abcde")?;
    place(
        rt,
        cells,
        b"random write of more than is lent",
        1000,
        9,
        b"abcde",
    )?;
    place(
        rt,
        cells,
        b"random write of a screen and a cell",
        0,
        2001,
        letters,
    )
}

// Draws `before` from the start of a blank screen and `bytes` from the cursor on.
fn draw(
    rt: &HostRuntime,
    cells: &mut [u8; CELLS],
    what: &[u8],
    before: &[u8],
    cursor: usize,
    bytes: &[u8],
) -> io::Result<()> {
    screen::blank(cells);
    screen::put_all(cells, 0, before);
    let next = screen::put_all(cells, cursor, bytes);
    io::writer(rt).write_all(what)?;
    show(rt, cells, next)
}

// Writes bytes over a blank screen's cells, and reads as many back.
fn place(
    rt: &HostRuntime,
    cells: &mut [u8; CELLS],
    what: &[u8],
    offset: usize,
    request: usize,
    bytes: &[u8],
) -> io::Result<()> {
    let mut back = [63u8; 20];
    screen::blank(cells);
    let moved = screen::write_at(cells, offset, request, bytes);
    let got = screen::read_at(cells, offset, request, &mut back);
    io::writer(rt).write_all(what)?;
    print!(rt; ", moved {moved}, read back {got} of 20 ")?;
    hexes(rt, &back)?;
    show(rt, cells, 0)
}

fn hexes(rt: &HostRuntime, bytes: &[u8]) -> io::Result<()> {
    for byte in bytes {
        print!(rt; "{byte:02x}")?;
    }
    Ok(())
}

fn show(rt: &HostRuntime, cells: &[u8], cursor: usize) -> io::Result<()> {
    let row = cursor / COLUMNS;
    let column = cursor % COLUMNS;
    println!(rt; ": row {row}, column {column}")?;
    for row in cells.chunks(COLUMNS) {
        line(rt, row)?;
    }
    Ok(())
}

// A row between bars.
fn line(rt: &HostRuntime, row: &[u8]) -> io::Result<()> {
    let mut text = [b'|'; COLUMNS + 3];
    for (place, &byte) in text[1..=COLUMNS].iter_mut().zip(row) {
        *place = shown(byte);
    }
    text[COLUMNS + 2] = b'\n';
    io::writer(rt).write_all(&text)
}

fn shown(byte: u8) -> u8 {
    if matches!(byte, b' '..=b'~') {
        return byte;
    }
    b'.'
}
