// The calls on the keyboard and the screen.
use super::line::{BadLine, Line, Words};
use super::session::Session;

/// The two numbers by which a call names a device.
#[derive(Clone, Copy, Debug)]
pub struct Address {
    pub major: u32,
    pub minor: u32,
}

/// A call, besides the partition that makes it.
#[derive(Clone, Copy)]
pub enum DeviceCall<'a> {
    /// The device, how many keys are asked for, and how long the buffer is.
    ReadNext(Address, u32, u32),
    /// The device, how many bytes are to be written, and the bytes.
    WriteNext(Address, u32, &'a [u8]),
    /// The device, the first cell, how many are asked for, and how long the buffer is.
    ReadRandom(Address, u32, u32, u32),
    /// The device, the first cell, how many are to be written, and the bytes.
    WriteRandom(Address, u32, u32, &'a [u8]),
}

impl<'a> DeviceCall<'a> {
    /// `read_next P MAJOR MINOR REQUEST LENGTH`
    pub fn read_next(words: Words<'a>) -> Result<Line<'a>, BadLine> {
        let [partition, major, minor, request, length, ..] = words.read(b"nnnnl")?.numbers;
        let call = DeviceCall::ReadNext(Address { major, minor }, request, length);
        Ok(Line::Device(partition, call))
    }

    /// `write_next P MAJOR MINOR REQUEST BYTES`
    pub fn write_next(words: Words<'a>) -> Result<Line<'a>, BadLine> {
        let read = words.read(b"nnnnb")?;
        let [partition, major, minor, request, ..] = read.numbers;
        let call = DeviceCall::WriteNext(Address { major, minor }, request, read.bytes);
        Ok(Line::Device(partition, call))
    }

    /// `read_random P MAJOR MINOR OFFSET REQUEST LENGTH`
    pub fn read_random(words: Words<'a>) -> Result<Line<'a>, BadLine> {
        let [partition, major, minor, offset, request, length] = words.read(b"nnnnnl")?.numbers;
        let call = DeviceCall::ReadRandom(Address { major, minor }, offset, request, length);
        Ok(Line::Device(partition, call))
    }

    /// `write_random P MAJOR MINOR OFFSET REQUEST BYTES`
    pub fn write_random(words: Words<'a>) -> Result<Line<'a>, BadLine> {
        let read = words.read(b"nnnnnb")?;
        let [partition, major, minor, offset, request, _] = read.numbers;
        let call = DeviceCall::WriteRandom(Address { major, minor }, offset, request, read.bytes);
        Ok(Line::Device(partition, call))
    }
}

impl Session<'_> {
    /// Calls, and answers with the number and how much was moved; where there is a buffer, with that too.
    pub fn device_call(&mut self, partition: u32, call: DeviceCall) {
        let p = partition;
        let terminal = &self.terminal;
        let screens = self.screens.bytes_mut();
        match call {
            DeviceCall::ReadNext(Address { major, minor }, request, length) => {
                let buffer = self.buffer.lend(length);
                let answer = terminal.read_next(p, major, minor, request, buffer);
                self.answered(b"read_next ", &answer);
                self.answers.number(b" ", answer.count);
                self.answers.bytes(b" ", self.buffer.bytes());
            }
            DeviceCall::WriteNext(Address { major, minor }, request, bytes) => {
                let answer = terminal.write_next(p, major, minor, request, bytes, screens);
                self.answered(b"write_next ", &answer);
                self.answers.number(b" ", answer.count);
            }
            DeviceCall::ReadRandom(Address { major, minor }, offset, request, length) => {
                let buffer = self.buffer.lend(length);
                let answer = terminal.read_random(
                    p, major, minor, offset, request, screens, buffer,
                );
                self.answered(b"read_random ", &answer);
                self.answers.number(b" ", answer.count);
                self.answers.bytes(b" ", self.buffer.bytes());
            }
            DeviceCall::WriteRandom(Address { major, minor }, offset, request, bytes) => {
                let answer = terminal.write_random(
                    p, major, minor, offset, request, bytes, screens,
                );
                self.answered(b"write_random ", &answer);
                self.answers.number(b" ", answer.count);
            }
        }
        self.answers.end_line();
    }
}
