// The calls on the login record and the password table.
use super::line::{BadLine, Line, Words};
use super::session::Session;

/// A call, besides the partition that makes it. Names and passwords come with the zero behind them.
#[derive(Clone, Copy)]
pub enum AccountCall<'a> {
    /// The name and the password.
    Login(&'a [u8], &'a [u8]),
    /// How long the buffer is.
    Who(u32),
    Logout,
    /// The new password, and how many bytes the store takes.
    SetPassword(&'a [u8], u32),
}

impl<'a> AccountCall<'a> {
    /// `login P NAME PASSWORD`
    pub fn login(words: Words<'a>) -> Result<Line<'a>, BadLine> {
        let read = words.read(b"nbb")?;
        let [partition, size, ..] = read.numbers;
        let size = read.bytes.len().min(size as usize);
        let (name, password) = read.bytes.split_at(size);
        let call = AccountCall::Login(name, password);
        Ok(Line::Account(partition, call))
    }

    /// `who P LENGTH`
    pub fn who(words: Words<'a>) -> Result<Line<'a>, BadLine> {
        let [partition, length, ..] = words.read(b"nl")?.numbers;
        Ok(Line::Account(partition, AccountCall::Who(length)))
    }

    /// `logout P`
    pub fn logout(words: Words<'a>) -> Result<Line<'a>, BadLine> {
        let [partition, ..] = words.read(b"n")?.numbers;
        Ok(Line::Account(partition, AccountCall::Logout))
    }

    /// `set_password P PASSWORD TAKEN`
    pub fn set_password(words: Words<'a>) -> Result<Line<'a>, BadLine> {
        let read = words.read(b"nbn")?;
        let [partition, _, taken, ..] = read.numbers;
        let call = AccountCall::SetPassword(read.bytes, taken);
        Ok(Line::Account(partition, call))
    }
}

impl Session<'_> {
    /// Calls, and answers with the number; `login` also with the work, `who` with the buffer.
    pub fn account_call(&mut self, partition: u32, call: AccountCall) {
        let terminal = &self.terminal;
        let tables = &mut self.tables;
        match call {
            AccountCall::Login(name, password) => {
                let answer = terminal.login(partition, name, password, tables.bytes());
                self.answered(b"login ", &answer);
                self.answers.number(b" ", answer.count);
            }
            AccountCall::Who(length) => {
                let buffer = self.buffer.lend(length);
                let answer = terminal.who(partition, tables.bytes(), buffer);
                self.answered(b"who ", &answer);
                self.answers.bytes(b" ", self.buffer.bytes());
            }
            AccountCall::Logout => {
                let answer = terminal.logout(partition);
                self.answered(b"logout ", &answer);
            }
            AccountCall::SetPassword(password, taken) => {
                let store = self.store.bytes_mut();
                let tables = tables.bytes_mut();
                let answer = terminal.set_password(partition, password, taken, store, tables);
                self.answered(b"set_password ", &answer);
            }
        }
        self.answers.end_line();
    }
}
