// The calls on segments, and the configuration.
use super::line::{BadLine, Line, Words};
use super::session::Session;

/// A call, besides the partition that makes it.
#[derive(Clone, Copy)]
pub enum MemoryCall<'a> {
    /// The segment's selector, a place in it, and how long the buffer is.
    Load(u32, u32, u32),
    /// The segment's selector, a place in it, and the bytes.
    Store(u32, u32, &'a [u8]),
    /// The segment's selector, and how many bytes the store takes.
    Flush(u32, u32),
    /// How long the buffer is.
    Configuration(u32),
}

impl<'a> MemoryCall<'a> {
    /// `load P SELECTOR OFFSET LENGTH`
    pub fn load(words: Words<'a>) -> Result<Line<'a>, BadLine> {
        let [partition, selector, offset, length, ..] = words.read(b"nnnl")?.numbers;
        let call = MemoryCall::Load(selector, offset, length);
        Ok(Line::Memory(partition, call))
    }

    /// `store P SELECTOR OFFSET BYTES`
    pub fn store(words: Words<'a>) -> Result<Line<'a>, BadLine> {
        let read = words.read(b"nnnb")?;
        let [partition, selector, offset, ..] = read.numbers;
        let call = MemoryCall::Store(selector, offset, read.bytes);
        Ok(Line::Memory(partition, call))
    }

    /// `flush P SELECTOR TAKEN`
    pub fn flush(words: Words<'a>) -> Result<Line<'a>, BadLine> {
        let [partition, selector, taken, ..] = words.read(b"nnn")?.numbers;
        let call = MemoryCall::Flush(selector, taken);
        Ok(Line::Memory(partition, call))
    }

    /// `configuration P LENGTH`
    pub fn configuration(words: Words<'a>) -> Result<Line<'a>, BadLine> {
        let [partition, length, ..] = words.read(b"nl")?.numbers;
        let call = MemoryCall::Configuration(length);
        Ok(Line::Memory(partition, call))
    }
}

impl Session<'_> {
    /// Calls, and answers with the number; where there is a buffer, with that too.
    pub fn memory_call(&mut self, partition: u32, call: MemoryCall) {
        let p = partition;
        let terminal = &self.terminal;
        let rights = self.permissions;
        let arena = self.arena.bytes_mut();
        let files = self.store.bytes_mut();
        match call {
            MemoryCall::Load(selector, offset, length) => {
                let buffer = self.buffer.lend(length);
                let answer = terminal.load(rights, p, selector, offset, arena, buffer);
                self.answered(b"load ", &answer);
                self.answers.bytes(b" ", self.buffer.bytes());
            }
            MemoryCall::Store(selector, offset, bytes) => {
                let answer = terminal.store(rights, p, selector, offset, bytes, arena);
                self.answered(b"store ", &answer);
            }
            MemoryCall::Flush(selector, taken) => {
                let answer = terminal.flush(rights, p, selector, taken, arena, files);
                self.answered(b"flush ", &answer);
            }
            MemoryCall::Configuration(length) => {
                let buffer = self.buffer.lend(length);
                let answer = terminal.configuration(rights, p, files, buffer);
                self.answered(b"configuration ", &answer);
                self.answers.bytes(b" ", self.buffer.bytes());
            }
        }
        self.answers.end_line();
    }
}
