// The records of a password file one by one.
ghost use Rattle.std.specs.Prelude.{◌≡◌, ◌≤◌, length, drop};
ghost use Rattle.rows.specs.Records.{chunks};
ghost use Rattle.passwords.specs.Walk.{reading_of, place_behind, count_behind, span_of};

use octets::span::Span;
use rows::{Cursor, Step};

// A record that was read: its number, from 0, and where it stands.
#[derive(Clone, Copy, Debug, PartialEq, Eq)]
pub(crate) struct Reading {
    pub number: usize,
    pub span: Span,
}

// The records of a password file from place `at` on, where `count` were read before.
#[derive(Clone, Copy, Debug)]
pub(crate) struct Records<'a> {
    pub file: &'a [u8],
    pub at: usize,
    pub count: usize,
}

impl<'a> Records<'a> {
    // All records.
    pub fn new(file: &'a [u8]) -> Self
        ensures file { result.file.now ≡ file.now }
        ensures at { result.at ≡ 0 }
        ensures count { result.count ≡ 0 }
    {
        Records {
            file,
            at: 0,
            count: 0,
        }
    }

    // Reads the first of the records that are left.
    pub fn next(&mut self) -> Option<Reading>
        requires { self.old.count ≤ length self.old.file.now }
        ensures found { result ≡ reading_of self.old.count self.old.at (chunks (drop self.old.at self.old.file.now)) }
        ensures file { self.new.file.now ≡ self.old.file.now }
        ensures at { self.new.at ≡ place_behind self.old.at result }
        ensures count { self.new.count ≡ count_behind self.old.count result }
    {
        let cursor = Cursor { at: self.at };
        let end = match cursor.read(self.file) {
            Step::Record { next, .. } => next.at,
            Step::Cut => self.file.len(),
            Step::End => return None,
        };
        let reading = Reading {
            number: self.count,
            span: Span {
                place: self.at,
                length: end - self.at,
            },
        };
        self.at = end;
        // Nothing else raises the count.
        self.count += 1;
        Some(reading)
    }
}

// Where record i stands; no bytes behind the last one where there is no such record.
pub(crate) fn locate(file: &[u8], i: usize) -> Span
    ensures { result ≡ span_of i file.now }
{
    let mut records = Records::new(file);
    while let Some(reading) = records.next() {
        if reading.number == i {
            return reading.span;
        }
    }
    Span {
        place: records.at,
        length: 0,
    }
}
