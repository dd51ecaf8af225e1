// Gaps between tokens, and lines.
ghost use Rattle.std.specs.Prelude.{◌≡◌};
ghost use Rattle.text.specs.Bytes.{separates};
ghost use Rattle.text.specs.Gaps.{token_place, line_feeds, line_of};
ghost use Rattle.text.specs.Steps.{comment_on, gap_on};

use octets::parts;

// Whether a byte separates tokens.
fn separates(b: u8) -> bool
    ensures { result ≡ separates b }
{
    matches!(b, b' ' | b'\t' | b'\n')
}

// Whether a gap, in a comment or not, goes on with the byte b.
fn gap_on(comment: bool, b: u8) -> bool
    ensures { result ≡ gap_on comment b }
{
    comment || b == b'#' || separates(b)
}

// Whether a gap is in a comment behind the byte b.
fn comment_on(comment: bool, b: u8) -> bool
    ensures { result ≡ comment_on comment b }
{
    (comment || b == b'#') && b != b'\n'
}

/// The place of the first token from place `at` on: the text's end where there is none, and `at` behind it.
pub fn token_place(text: &[u8], at: usize) -> usize
    ensures { result ≡ token_place text.now at }
{
    let mut comment = false;
    // Stays: by place, since the place is the answer.
    for i in at..text.len() {
        let b = text[i];
        if !gap_on(comment, b) {
            return i;
        }
        comment = comment_on(comment, b);
    }
    at.max(text.len())
}

// How many line feeds there are.
fn line_feeds(text: &[u8]) -> usize
    ensures { result ≡ line_feeds text.now }
{
    text.iter().filter(|b| **b == b'\n').count()
}

/// The line that the byte at place `at` stands in, counted from 1.
pub fn line_of(text: &[u8], at: usize) -> usize
    ensures { result ≡ line_of text.now at }
{
    1 + line_feeds(parts::piece(text, 0, at))
}
