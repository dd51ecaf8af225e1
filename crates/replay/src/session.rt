// A run: the terminal, what it is lent, and what the next start is given.
use super::answers::Answers;
use super::areas::Area;
use super::line::{BadLine, LONGEST, Line};
use replay_text::letters::Letters;
use terminal::{Answer, Terminal};

/// The terminal, and whether a start of it was accepted; what the next start is given; the areas, each as long as the
/// lines before have made it; the permission table; the buffer that a call is lent; the answers that wait; and how many
/// lines there were.
#[derive(Drop)]
pub struct Session<'a> {
    pub terminal: Terminal,
    pub accepted: bool,
    pub partitions: Letters,
    pub soft: bool,
    pub text: Area<'a>,
    pub store: Area<'a>,
    pub arena: Area<'a>,
    pub tables: Area<'a>,
    pub screens: Area<'a>,
    pub permissions: [[u8; 8]; 32],
    pub buffer: Area<'a>,
    pub answers: Answers<'a>,
    pub lines: usize,
}

impl<'a> Session<'a> {
    /// Does what the next line of the text says; an answer that this has waits. `given` is the room for the bytes that
    /// the line spells.
    pub fn obey(&mut self, line: &[u8], given: &mut [u8]) {
        self.lines = self.lines.saturating_add(1);
        if let Err(BadLine) = self.obey_or_refuse(line, given) {
            self.answers.number(b"bad line ", self.lines);
            self.answers.end_line();
        }
    }

    fn obey_or_refuse(&mut self, line: &[u8], given: &mut [u8]) -> Result<(), BadLine> {
        match line {
            [] | [b'#', ..] => Ok(()),
            _ if LONGEST < line.len() => Err(BadLine),
            _ => self.carry_out(Line::read(line, given)?),
        }
    }

    fn carry_out(&mut self, line: Line) -> Result<(), BadLine> {
        match line {
            Line::Setting(setting) => return self.set(setting),
            Line::Start => self.start(),
            Line::Account(partition, call) => self.account_call(partition, call),
            Line::Device(partition, call) => self.device_call(partition, call),
            Line::Memory(partition, call) => self.memory_call(partition, call),
            Line::Stop(partition, call) => self.stop_call(partition, call),
            Line::Event(event) => self.hear(event),
            Line::Look(look) => self.look(look),
        }
        Ok(())
    }

    /// Goes on with the terminal of the answer. `name` and its number begin a line.
    pub fn answered(&mut self, name: &[u8], answer: &Answer) {
        self.terminal = answer.terminal;
        self.answers.number(name, answer.number as usize);
    }
}
