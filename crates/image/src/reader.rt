// The reader of an image: a struct that holds the image and keeps the place of the next record.
//
// The functions over it are few and thin, no other file sees a reader, and the work is left to `item_at`. Whoever
// walks an image calls `read`, which takes and returns plain values.
// Stays: the image is a slice and its place a cursor by value, then a thin struct that is taken apart at once
// (docs/DECISIONS.md, "The reader").
ghost use Rattle.std.specs.Prelude.{◌≡◌};
ghost use Rattle.rows.specs.Steps.{first_place};
ghost use Rattle.image.specs.Items.{item_at};

use super::item;
use super::item::Item;
use rows::Cursor;

// An image, and the place of the record to be read next.
#[derive(Clone, Copy, Debug, PartialEq, Eq)]
struct Reader<'a> {
    image: &'a [u8],
    at: usize,
}

// A reader at the first record.
fn new<'a>(image: &'a [u8]) -> Reader<'a>
    ensures { (result.image ≡ image.entry) × (result.at ≡ first_place.at) }
{
    Reader { image, at: 0 }
}

// The same reader at another place.
fn moved<'a>(reader: Reader<'a>, at: usize) -> Reader<'a>
    ensures { (result.image ≡ reader.entry.image) × (result.at ≡ at) }
{
    Reader {
        image: reader.image,
        at,
    }
}

// The record at the reader's place, which says where the next one stands.
fn next<'a>(reader: Reader<'a>) -> Item
    ensures { result ≡ item_at reader.entry.image.now reader.entry.at }
{
    item::item_at(reader.image, reader.at)
}

// The record at a cursor.
pub fn read(image: &[u8], cursor: Cursor) -> Item
    ensures { result ≡ item_at image.now cursor.at }
{
    next(moved(new(image), cursor.at))
}
