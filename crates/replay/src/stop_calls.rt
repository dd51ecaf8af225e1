// The calls that stop the terminal.
use super::line::{BadLine, Line, Words};
use super::session::Session;

/// A call, besides the partition that makes it.
#[derive(Clone, Copy)]
pub enum StopCall<'a> {
    /// The message, with the zero behind it.
    Shutdown(&'a [u8]),
    Powerdown,
}

impl<'a> StopCall<'a> {
    /// `shutdown P MESSAGE`
    pub fn shutdown(words: Words<'a>) -> Result<Line<'a>, BadLine> {
        let read = words.read(b"nb")?;
        let [partition, ..] = read.numbers;
        Ok(Line::Stop(partition, StopCall::Shutdown(read.bytes)))
    }

    /// `powerdown P`
    pub fn powerdown(words: Words<'a>) -> Result<Line<'a>, BadLine> {
        let [partition, ..] = words.read(b"n")?.numbers;
        Ok(Line::Stop(partition, StopCall::Powerdown))
    }
}

impl Session<'_> {
    /// Calls, and answers with the number.
    pub fn stop_call(&mut self, partition: u32, call: StopCall) {
        let terminal = &self.terminal;
        let screens = self.screens.bytes_mut();
        match call {
            StopCall::Shutdown(message) => {
                let answer = terminal.shutdown(partition, message, screens);
                self.answered(b"shutdown ", &answer);
            }
            StopCall::Powerdown => {
                let answer = terminal.powerdown(partition, screens);
                self.answered(b"powerdown ", &answer);
            }
        }
        self.answers.end_line();
    }
}
