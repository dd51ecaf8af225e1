// A part of a row, by its place and its length.
ghost use Rattle.std.specs.Prelude.{◌≡◌};
ghost use Rattle.octets.specs.Spans.{no_span, bytes_of};

use super::parts;

/// `length` bytes of a row from `place` on. The default is no bytes, at place 0.
#[derive(Clone, Copy, Debug, Default, PartialEq, Eq)]
pub struct Span {
    pub place: usize,
    pub length: usize,
}

impl Span {
    /// No bytes, at place 0.
    pub const NONE: Span = Span {
        place: 0,
        length: 0,
    };

    /// The bytes that it spans; fewer where the row ends first.
    #[tactic(auto, unfolding(crate::specs::Spans::bytes_of))]
    pub fn of(self, row: &[u8]) -> &[u8]
        ensures { result.now ≡ bytes_of row.now self }
    {
        parts::piece(row, self.place, self.length)
    }
}
