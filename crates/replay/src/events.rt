// What happens to the terminal from outside. Events print nothing.
use super::line::{BadLine, Line, Words};
use super::session::Session;

/// An event.
#[derive(Clone, Copy, Debug)]
pub enum Event {
    /// The byte of a key that is pressed.
    Key(u8),
    /// The attention key is pressed.
    Attention,
    /// The partition, its device, and whether that fails or works again.
    Fault(u32, u32, bool),
}

impl Event {
    /// `key BYTE`
    pub fn key(words: Words) -> Result<Line, BadLine> {
        let [byte, ..] = words.read(b"y")?.numbers;
        Ok(Line::Event(Event::Key((byte % 256) as u8)))
    }

    /// `attention`
    pub fn attention(words: Words) -> Result<Line, BadLine> {
        words.none()?;
        Ok(Line::Event(Event::Attention))
    }

    /// `fault P DEVICE set`, `fault P DEVICE clear`
    pub fn fault(words: Words) -> Result<Line, BadLine> {
        let [partition, device, set, ..] = words.read(b"nns")?.numbers;
        Ok(Line::Event(Event::Fault(partition, device, set == 1)))
    }
}

impl Session<'_> {
    /// The terminal hears of an event.
    pub fn hear(&mut self, event: Event) {
        let terminal = &self.terminal;
        self.terminal = match event {
            Event::Key(byte) => terminal.key(byte),
            Event::Attention => terminal.attention(),
            Event::Fault(partition, device, set) => terminal.fault(partition, device, set),
        };
    }
}
