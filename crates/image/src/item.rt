// One record of an image: a file, another record, a cut one, or none.
ghost use Rattle.std.specs.Prelude.{◌≡◌, get_or};
ghost use Rattle.octets.specs.Spans.{bytes_of};
ghost use Rattle.image.specs.Items.{item_at};
ghost use Rattle.image.specs.Files.{good_numbers};

use octets::span::Span;
use rows::{Cursor, Step};

// What stands at a place.
#[derive(Clone, Copy, Debug, PartialEq, Eq)]
pub enum Item {
    // A good record: its path, and behind it contents of `length` bytes.
    File {
        title: Span,
        length: usize,
        next: Cursor,
    },
    // A whole record that is not good.
    Other {
        next: Cursor,
    },
    // A record that the row's end cuts off.
    Cut,
    // Nothing.
    End,
}

// The first byte of a part of an image; 0 where it has none.
#[tactic(auto, unfolding(octets::specs::Spans::bytes_of))]
fn first(image: &[u8], part: Span) -> usize
    ensures { result ≡ get_or (bytes_of image.now part) 0 0 }
{
    usize::from(part.of(image).first().copied().unwrap_or(0))
}

// Whether these are a good record's numbers: its kind, its path's length and its payload's.
#[tactic(auto, unfolding(crate::specs::Files::good_numbers))]
fn good_numbers(kind: u32, title: usize, count: usize) -> bool
    ensures { result ≡ good_numbers kind title count }
{
    kind == 1 && 2 <= title && title <= 63 && title < count
}

// The record at a place, as an image's.
pub fn item_at(image: &[u8], at: usize) -> Item
    ensures { result ≡ item_at image.now at }
{
    let cursor = Cursor { at };
    match cursor.read(image) {
        Step::End => Item::End,
        Step::Cut => Item::Cut,
        Step::Record {
            kind,
            payload,
            next,
        } => {
            let length = first(image, payload);
            if !good_numbers(kind, length, payload.length) {
                return Item::Other { next };
            }
            let place = payload.place + 1;
            Item::File {
                title: Span { place, length },
                length: payload.length - (length + 1),
                next,
            }
        }
    }
}
