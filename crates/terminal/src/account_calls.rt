//! The calls on the calling partition's login record and password table.
ghost use Rattle.std.specs.Prelude.{◌≡◌};
ghost use Rattle.terminal.specs.Terminal.{outcome, record_of, with_record, table_of, tables_wrong};
ghost use Rattle.terminal.specs.AccountCalls.{login, who, logout, set_password, written};

use super::{Answer, Terminal};
use octets::parts;
use state::{LoginRecord, Seat};

impl Terminal {
    // The calling partition's login record.
    #[tactic(auto, unfolding(crate::specs::Terminal::record_of))]
    fn login_of(&self, partition: u32) -> LoginRecord
        ensures { result ≡ record_of self.now partition }
    {
        self.partition(partition).login
    }

    // The calling partition's login record becomes this one.
    #[tactic(auto, unfolding(crate::specs::Terminal::with_record))]
    fn with_record(self, partition: u32, login: LoginRecord) -> Self
        ensures { result ≡ with_record partition login self }
    {
        let part = self.partition(partition).with_login(login);
        self.with_partition(partition, part)
    }

    // The calling partition's password table.
    #[tactic(auto, unfolding(crate::specs::Terminal::table_of, octets::specs::Spans::bytes_of))]
    fn table<'a>(&self, partition: u32, tables: &'a [u8]) -> &'a [u8]
        ensures { result.now ≡ table_of self.now partition tables.now }
    {
        self.seat(partition).table.of(tables)
    }

    // The tables are not as long as at start, or the caller's cannot be read.
    #[tactic(auto, unfolding(crate::specs::Terminal::tables_wrong, crate::specs::Terminal::differs))]
    fn tables_wrong(&self, partition: u32, tables: &[u8]) -> bool
        ensures { result ≡ tables_wrong self.now partition tables.now }
    {
        let table = self.table(partition, tables);
        tables.len() != self.plan.kept.tables
            || self.plan.is_active(partition as usize)
                && !accounts::readable(self.login_of(partition), table)
    }

    /// Logs a user in by name and password.
    #[tactic(auto, unfolding(crate::specs::AccountCalls::login, crate::specs::AccountCalls::tried))]
    pub fn login(mut self, partition: u32, name: &[u8], password: &[u8], tables: &[u8]) -> Answer
        ensures { result ≡ login self partition name.now password.now tables.now }
    {
        let n = self.guard(self.tables_wrong(partition, tables), partition);
        let record = self.login_of(partition);
        let attempt = accounts::login(n, record, self.table(partition, tables), name, password);
        self.with_record(partition, attempt.login)
            .answer(attempt.number, attempt.count)
    }

    /// Writes the name of who is logged in, and a zero, into the buffer.
    #[tactic(auto, unfolding(crate::specs::AccountCalls::who, crate::specs::Terminal::unmoved))]
    pub fn who(mut self, partition: u32, tables: &[u8], buffer: &mut [u8]) -> Answer
        ensures { outcome result buffer.new ≡ who self partition tables.now buffer.old }
    {
        let n = self.guard(self.tables_wrong(partition, tables), partition);
        let record = self.login_of(partition);
        let number = accounts::who(n, record, self.table(partition, tables), buffer);
        self.answer(number, 0)
    }

    /// Logs whoever is logged in out.
    #[tactic(auto, unfolding(crate::specs::AccountCalls::logout, checks::specs::Settle::settle))]
    pub fn logout(mut self, partition: u32) -> Answer
        ensures { result ≡ logout self partition }
    {
        let n = self.guard(false, partition);
        if n != 0 {
            return self.answer(n, 0);
        }
        self.with_record(partition, LoginRecord::new()).answer(0, 0)
    }

    /// Changes the password of who is logged in; the store takes the first `taken` bytes of the password file.
    pub fn set_password(
        mut self,
        partition: u32,
        password: &[u8],
        taken: u32,
        store: &mut [u8],
        tables: &mut [u8],
    ) -> Answer
        ensures { written result store.new tables.new ≡ set_password self partition password.now taken store.old tables.old }
    {
        let wrong = self.tables_wrong(partition, tables);
        let n = self.guard((store.len() != self.plan.kept.store) | wrong, partition);
        let record = self.login_of(partition);
        // Stays: the ends of both parts are told here. Both are lent for writing at once, and a span lends one part.
        let Seat { file, table, .. } = self.seat(partition);
        let from = file.place.min(store.len());
        let to = parts::sum(from, file.length, store.len());
        let start = table.place.min(tables.len());
        let end = parts::sum(start, table.length, tables.len());
        let number = accounts::set_password(
            n,
            record,
            password,
            taken,
            &mut store[from..to],
            &mut tables[start..end],
        );
        self.answer(number, 0)
    }
}
