// Rows of records: payload length (four bytes, little-endian), kind (two bytes, little-endian), payload.
//
// A reader walks a row record by record: it holds the row as a slice and its place as a cursor by value. Any bytes can
// be read from any place, and no sum wraps.
#![tactic(auto)]

ghost use Rattle.std.specs.Prelude.{◌≡◌};
ghost use Rattle.rows.specs.Steps.{first_place, step_at};

use octets::span::Span;
use octets::{numbers, parts};

/// A place in a row.
#[derive(Clone, Copy, Debug, PartialEq, Eq)]
pub struct Cursor {
    pub at: usize,
}

/// What stands at a cursor.
#[derive(Clone, Copy, Debug, PartialEq, Eq)]
pub enum Step {
    /// A whole record, with the place of the next one.
    Record {
        kind: u32,
        payload: Span,
        next: Cursor,
    },
    /// A record that the row's end cuts off.
    Cut,
    /// Nothing.
    End,
}

impl Cursor {
    /// The place of a row's first record.
    pub fn new() -> Self
        ensures { result ≡ first_place }
    {
        Cursor { at: 0 }
    }

    /// The record at this place.
    pub fn read(self, row: &[u8]) -> Step
        ensures { result ≡ step_at row.now self.at }
    {
        let at = self.at;
        if row.len() <= at {
            return Step::End;
        }
        let left = row.len() - at;
        if left < 6 {
            return Step::Cut;
        }
        // Cut out once: in six bytes that are there no number's byte has to be asked for.
        let header = parts::piece(row, at, 6);
        let length = numbers::read32(header, 0) as usize;
        if left - 6 < length {
            return Step::Cut;
        }
        let kind = numbers::read16(header, 4);
        let place = at + 6;
        let payload = Span { place, length };
        let next = Cursor { at: place + length };
        Step::Record {
            kind,
            payload,
            next,
        }
    }
}
