// Rows of bytes in use: what a run lends to its terminal, and what it reads.
use super::line::BadLine;
use octets::parts;
use replay_text::hex;
use std::io;
use std::io::Read;

/// What each byte of a lent row is before it is written.
pub const UNTOUCHED: u8 = 165;

/// A row of bytes of which the first `length` are in use.
// Stays: a row with its length beside it, since memory is fixed (docs/DECISIONS.md, "Forms that stay").
#[derive(Drop)]
pub struct Area<'a> {
    room: &'a mut [u8],
    length: usize,
}

impl<'a> Area<'a> {
    /// The first `length` bytes of `room` are in use, as they are.
    pub fn new(room: &'a mut [u8], length: usize) -> Area<'a> {
        Area { room, length }
    }

    /// What is in use.
    pub fn bytes(&self) -> &[u8] {
        parts::piece(self.room, 0, self.length)
    }

    /// The same, lent for writing.
    pub fn bytes_mut(&mut self) -> &mut [u8] {
        let end = self.length.min(self.room.len());
        &mut self.room[..end]
    }

    /// The first `length` bytes, untouched, which are in use from now on.
    pub fn lend(&mut self, length: u32) -> &mut [u8] {
        self.length = length as usize;
        let bytes = self.bytes_mut();
        bytes.fill(UNTOUCHED);
        bytes
    }

    /// Reads into the room from its start; how many bytes were read and are in use now, none at the input's end.
    pub fn refill(&mut self, rt: &HostRuntime) -> io::Result<usize> {
        let length = rt.stdin().read(self.room)?;
        self.length = length;
        Ok(length)
    }

    /// Puts bytes behind those in use, as many as there is room for.
    pub fn push(&mut self, bytes: &[u8]) {
        let at = self.length;
        parts::lay(bytes, self.room, at);
        self.length = at.saturating_add(bytes.len()).min(self.room.len());
    }

    /// Puts the bytes that a word spells behind those in use. A word that is wrong or too long appends nothing.
    pub fn append(&mut self, word: &[u8]) -> Result<(), BadLine> {
        let size = hex::size_of(word).ok_or(BadLine)?;
        let end = self.length.saturating_add(size);
        if self.room.len() < end {
            return Err(BadLine);
        }
        hex::decode(word, self.room, self.length);
        self.length = end;
        Ok(())
    }

    /// No byte is in use.
    pub fn clear(&mut self) {
        self.length = 0;
    }
}
