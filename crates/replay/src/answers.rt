// The lines that are printed.
use lines::Output;
use octets::parts;
use replay_text::hex::put_bytes;
use replay_text::shown::put_cells;
use std::io;
use std::io::Write;

// What waits is written out once there is more than this: no answer to one line is as long as the rest of the row.
const PLENTY: usize = 49152;

/// The answers that wait to be written out: the first `used` bytes of the row.
// Stays: a row with its length beside it, since memory is fixed (docs/DECISIONS.md, "Forms that stay"). An `Output` in
// its place was tried: it has ghost fields, and the check has no rule for lending its row where it lies in a struct.
#[derive(Drop)]
pub struct Answers<'a> {
    row: &'a mut [u8],
    used: usize,
}

impl<'a> Answers<'a> {
    /// None waits; `row` has 65,536 bytes.
    pub fn new(row: &'a mut [u8]) -> Answers<'a> {
        Answers { row, used: 0 }
    }

    /// Writes out what waits.
    pub fn flush(&mut self, rt: &HostRuntime) -> io::Result<()> {
        let used = self.used;
        io::writer(rt).write_all(parts::piece(self.row, 0, used))?;
        self.used = 0;
        Ok(())
    }

    /// Writes out what waits where that is much.
    pub fn spare(&mut self, rt: &HostRuntime) -> io::Result<()> {
        if self.used <= PLENTY {
            return Ok(());
        }
        self.flush(rt)
    }

    /// A text as it stands.
    pub fn text(&mut self, text: &[u8]) {
        let used = self.used;
        let mut output = Output::new(self.row, used);
        output.put(text);
        self.used = output.at;
    }

    /// A text and a number behind it.
    pub fn number(&mut self, text: &[u8], n: usize) {
        let used = self.used;
        let mut output = Output::new(self.row, used);
        output.put(text);
        output.put_decimal(n as u64);
        self.used = output.at;
    }

    /// A text and a flag behind it, as 1 or 0.
    pub fn flag(&mut self, text: &[u8], flag: bool) {
        self.number(text, usize::from(flag));
    }

    /// A text and bytes behind it in hex digits.
    pub fn bytes(&mut self, text: &[u8], bytes: &[u8]) {
        let used = self.used;
        let mut output = Output::new(self.row, used);
        output.put(text);
        put_bytes(&mut output, bytes);
        self.used = output.at;
    }

    /// Cells of a screen.
    pub fn cells(&mut self, cells: &[u8]) {
        let used = self.used;
        let mut output = Output::new(self.row, used);
        put_cells(&mut output, cells);
        self.used = output.at;
    }

    /// The end of a line.
    pub fn end_line(&mut self) {
        self.text(b"\n");
    }
}
