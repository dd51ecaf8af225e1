// Tokens: words and marks, numbers, sizes, paths. Each stands behind a gap, which may be empty.
ghost use Rattle.std.specs.Prelude.{◌≡◌, ◌≤◌};
ghost use Rattle.text.specs.Tokens.{word_at, number_at, sized, size_at, path_of, quoted_path, bare_path, path_at};

use super::{Class, gaps, runs};
use octets::span::Span;
use octets::{parts, search};

// The largest number.
const LARGEST: u64 = 4_294_967_295;

// The longest path, in bytes.
const LONGEST: usize = 63;

/// The place behind this word or mark.
#[tactic(auto, unfolding(crate::specs::Tokens::word_at))]
pub fn word_at(word: &[u8], text: &[u8], at: usize) -> Option<usize>
    ensures { result ≡ word_at word.now text.now at }
{
    let place = gaps::token_place(text, at);
    if !search::same(parts::piece(text, place, word.len()), word) {
        return None;
    }
    Some(place + word.len())
}

/// A number, at most 4,294,967,295, and the place behind it.
pub fn number_at(text: &[u8], at: usize) -> Option<(u64, usize)>
    ensures { result ≡ number_at text.now at }
{
    let place = gaps::token_place(text, at);
    let length = runs::run(Class::Digit, text, place);
    let value = runs::decimal(parts::piece(text, place, length));
    if (length == 0) | (LARGEST < value) {
        return None;
    }
    Some((value, place + length))
}

// A number with the unit that stands at place p, if one does, and the place behind both.
#[tactic(auto, unfolding(crate::specs::Tokens::sized))]
fn sized(value: u64, text: &[u8], p: usize) -> (u64, usize)
    requires { value ≤ 4294967295 }
    ensures { result ≡ sized value text.now p }
{
    let unit = parts::piece(text, p, 2);
    if search::same(unit, b"KB") {
        return (value * 1024, p + 2);
    }
    if search::same(unit, b"MB") {
        return (value * 1048576, p + 2);
    }
    if search::same(unit, b"GB") {
        return (value * 1073741824, p + 2);
    }
    (value, p)
}

/// A number, with a unit directly behind it or without: the product, and the place behind.
#[tactic(auto, unfolding(crate::specs::Tokens::size_at, crate::specs::Tokens::with_unit))]
pub fn size_at(text: &[u8], at: usize) -> Option<(u64, usize)>
    ensures { result ≡ size_at text.now at }
{
    let (value, next) = number_at(text, at)?;
    Some(sized(value, text, next))
}

// The n bytes from place p on, if they are a path.
#[tactic(auto, unfolding(crate::specs::Tokens::path_of))]
fn path_of(text: &[u8], p: usize, n: usize, next: usize) -> Option<(Span, usize)>
    ensures { result ≡ path_of text.now p n next }
{
    if runs::is_at(text, p, b'/') && (2..=LONGEST).contains(&n) {
        let path = Span {
            place: p,
            length: n,
        };
        return Some((path, next));
    }
    None
}

// A path in quote marks, whose first byte stands at place p.
#[tactic(auto, unfolding(crate::specs::Tokens::quoted_path))]
fn quoted_path(text: &[u8], p: usize) -> Option<(Span, usize)>
    ensures { result ≡ quoted_path text.now p }
{
    let length = runs::run(Class::Quoted, text, p);
    if !runs::is_at(text, p + length, b'"') {
        return None;
    }
    path_of(text, p, length, p + length + 1)
}

// A path without quote marks, whose first byte stands at place p.
#[tactic(auto, unfolding(crate::specs::Tokens::bare_path))]
fn bare_path(text: &[u8], p: usize) -> Option<(Span, usize)>
    ensures { result ≡ bare_path text.now p }
{
    let length = runs::run(Class::Bare, text, p);
    path_of(text, p, length, p + length)
}

/// A path, in quote marks or not, and the place behind it.
#[tactic(auto, unfolding(crate::specs::Tokens::path_at))]
pub fn path_at(text: &[u8], at: usize) -> Option<(Span, usize)>
    ensures { result ≡ path_at text.now at }
{
    let place = gaps::token_place(text, at);
    if runs::is_at(text, place, b'"') {
        return quoted_path(text, place + 1);
    }
    bare_path(text, place)
}
