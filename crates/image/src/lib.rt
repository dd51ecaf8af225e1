// The store image: a row of records of kind 1, each a path length (one byte, 2 to 63), a path and contents.
//
// Any bytes can be asked. Looking for a path walks the records from the first one on, passes over what is no good
// record and ends where the row ends or cuts a record off.
#![tactic(auto)]

use octets::search;
use octets::span::Span;
use rows::Cursor;

mod item;
mod reader;

ghost use Rattle.std.specs.Prelude.{◌≡◌, drop};
ghost use Rattle.rows.specs.Records.{chunks};
ghost use Rattle.image.specs.Image.{good, spot, file};
ghost use Rattle.image.specs.Items.{again_at};
ghost use Rattle.image.specs.Files.{spot_in};

use item::Item;

// Where the contents of the first file with a path stand, from a cursor on.
fn find_from(image: &[u8], from: Cursor, path: &[u8]) -> Option<Span>
    ensures { result ≡ spot_in path.now from.at (chunks (drop from.at image.now)) }
{
    let mut cursor = from;
    // Stays: a `loop`. Each of a record's cases goes its own way, and a `while let` would name one of them.
    loop {
        match reader::read(image, cursor) {
            Item::File {
                title,
                length,
                next,
            } => {
                if search::same(title.of(image), path) {
                    let place = title.place + title.length;
                    return Some(Span { place, length });
                }
                cursor = next;
            }
            Item::Other { next } => cursor = next,
            Item::Cut | Item::End => return None,
        }
    }
}

/// Where the contents of the file with a path stand.
#[tactic(auto, unfolding(crate::specs::Image::spot))]
pub fn find(image: &[u8], path: &[u8]) -> Option<Span>
    ensures { result ≡ spot path.now image.now }
{
    find_from(image, Cursor::new(), path)
}

/// The contents of the file with a path, as a part of the image; the empty part where there is none.
#[tactic(auto, using(crate::proofs::Found::part_or_none))]
pub fn contents<'a>(image: &'a [u8], path: &[u8]) -> &'a [u8]
    ensures { result.now ≡ file path.now image.now }
{
    find(image, path).unwrap_or(Span::NONE).of(image)
}

// Whether a file whose path is the one at `title` comes from a cursor on.
#[tactic(auto, unfolding(crate::specs::Items::again_at, crate::specs::Image::was_found), using(crate::proofs::Found::held))]
fn again(image: &[u8], title: Span, from: Cursor) -> bool
    ensures { result ≡ again_at image.now title from.at }
{
    find_from(image, from, title.of(image)).is_some()
}

/// Whether the image is good: every record is, and no path comes twice.
pub fn good(image: &[u8]) -> bool
    ensures { result ≡ good image.now }
{
    let mut cursor = Cursor::new();
    // Stays: a `loop`, as in `find_from`.
    loop {
        match reader::read(image, cursor) {
            Item::File { title, next, .. } => {
                if again(image, title, next) {
                    return false;
                }
                cursor = next;
            }
            Item::Other { .. } | Item::Cut => return false,
            Item::End => return true,
        }
    }
}
