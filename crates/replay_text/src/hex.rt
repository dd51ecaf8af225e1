// Bytes as hex digits, two for each, the higher first.
ghost use Rattle.std.specs.Prelude.{◌≡◌, ◌&&◌, ◌%◌, eqb, ltb, length, ◌≤◌};
ghost use Rattle.std.specs.List.{list_all};
ghost use Rattle.octets.specs.Lists.{write_at};
ghost use Rattle.lines.specs.Wrote.{Put};
ghost use Rattle.replay_text.specs.Hex.{is_hex, worth, hex_digit, size_of, bytes_of, hex_of, spelled};

use super::MOST;
use lines::Output;
use octets::{parts, search};

// A hex digit, 0 to 9 or a to f.
fn is_hex(b: u8) -> bool
    ensures { result ≡ is_hex b }
{
    matches!(b, b'0'..=b'9' | b'a'..=b'f')
}

// What a digit counts; any other byte counts 0.
fn worth(b: u8) -> u8
    ensures counts { result ≡ worth b }
    ensures small { result ≤ 15 }
{
    match b {
        b'0'..=b'9' => b - b'0',
        b'a'..=b'f' => b - b'a' + 10,
        _ => 0,
    }
}

fn all_hex(word: &[u8]) -> bool
    ensures { result ≡ list_all is_hex word.now }
{
    word.iter().all(|b| is_hex(*b))
}

// Two digits to each byte, and one byte or more.
fn spells_bytes(word: &[u8]) -> bool
    ensures { result ≡ (ltb 0 (length word.now) && (eqb (length word.now % 2) 0 && list_all is_hex word.now)) }
{
    !word.is_empty() && word.len() % 2 == 0 && all_hex(word)
}

/// How many bytes a word spells: none for "-", else one for each two digits; `None` where it is no such word.
pub fn size_of(word: &[u8]) -> Option<usize>
    ensures { result ≡ size_of word.now }
{
    if search::same(word, b"-") {
        return Some(0);
    }
    if !spells_bytes(word) {
        return None;
    }
    Some(word.len() / 2)
}

/// Writes the bytes that a word spells over `to`, from place `at` on, as far as there is room.
pub fn decode(word: &[u8], to: &mut [u8], at: usize)
    ensures { to.new ≡ write_at at (bytes_of word.now) to.old }
{
    let start = at.min(to.len());
    let count = (word.len() / 2).min(to.len() - start);
    // Stays by place: two digits of one row are a byte of another. Put one by one, bytes took twice the time and more.
    for i in 0..count {
        to[start + i] = worth(word[2 * i]) * 16 + worth(word[2 * i + 1]);
    }
}

// The digit for a number below 16.
#[tactic(auto, unfolding(crate::specs::Hex::hex_digit))]
fn digit(n: u8) -> u8
    ensures { result ≡ hex_digit n }
{
    if n < 10 { b'0' + n } else { b'a' - 10 + n % 16 }
}

// Writes the digits of all these bytes over `to`, from place `at` on, as far as there is room.
fn encode(from: &[u8], to: &mut [u8], at: usize)
    ensures { to.new ≡ write_at at (hex_of from.now) to.old }
{
    let start = at.min(to.len());
    let count = (2 * from.len()).min(to.len() - start);
    // Stays by place, as in `decode`: of a row that a `zip` goes over for writing, nothing is known afterwards.
    for i in 0..count / 2 {
        to[start + 2 * i] = digit(from[i] / 16);
        to[start + 2 * i + 1] = digit(from[i] % 16);
    }
    if count % 2 == 1 {
        to[start + (count - 1)] = digit(from[count / 2] / 16);
    }
}

/// The digits of all these bytes, or "-" where there is none.
pub fn put_bytes(out: &mut Output, from: &[u8])
    ensures { Put (spelled from.now) out.old out.new }
{
    if from.is_empty() {
        out.put(b"-");
        return;
    }
    encode(from, out.row, out.at);
    out.at = parts::sum(out.at, 2 * from.len(), MOST);
}
