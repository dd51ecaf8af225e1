// The blocks of a padded message (FIPS 180-4, sections 5.1.1 and 5.2.1), read from the message itself:
// the padded message is never built. Whole blocks are read straight from the slice; only the last
// one or two go byte by byte.
ghost use Rattle.std.specs.Prelude.{◌≡◌, ◌+◌, ◌*◌, ◌/◌, ◌%◌, ◌^◌, ◌<◌, ◌≤◌, ◌++◌, length, slice_index};
ghost use Rattle.sha256.specs.Words.{word_at, words_at};
ghost use Rattle.sha256.specs.Padding.{zeros, padded, blocks};
ghost use Rattle.sha256.specs.Padding.{block as Padding·block};
ghost use Rattle.sha256.specs.Marked.{marked, closing};

// How many blocks a message of n bytes fills, padded.
#[tactic(auto, unfolding(crate::specs::Padding::zeros))]
pub(crate) fn count(n: usize) -> usize
    ensures { result ≡ (n + 1 + zeros n + 8) / 64 }
{
    if n % 64 < 56 { n / 64 + 1 } else { n / 64 + 2 }
}

// Block i of the padded message.
pub(crate) fn block(message: &[u8], i: usize) -> [u32; 16]
    requires { i < blocks message.now }
    ensures { result ≡ Padding·block i (padded message.now) }
{
    let whole = message.len() / 64;
    if i < whole {
        let at = i * 64;
        return whole_block(&message[at..]);
    }
    let from = whole * 64;
    let rest = &message[from..];
    let at = (i - whole) * 64;
    if at + 56 <= rest.len() {
        return marked_block(rest);
    }
    // called in one place, so that it is compiled into its caller
    closing_block(rest, at, message.len())
}

fn word(a: u8, b: u8, c: u8, d: u8) -> u32
    ensures { result ≡ a * 2 ^ 24 + b * 2 ^ 16 + c * 2 ^ 8 + d }
{
    u32::from_be_bytes([a, b, c, d])
}

fn word_at(bytes: &[u8], at: usize) -> u32
    requires { at + 4 ≤ length bytes.now }
    ensures { result ≡ word_at at bytes.now }
{
    word(bytes[at], bytes[at + 1], bytes[at + 2], bytes[at + 3])
}

// Stays: this row of words and the two below are written out. array::from_fn over sixteen of them was tried, and the
// proof did not close; over eight it does.
fn whole_block(bytes: &[u8]) -> [u32; 16]
    requires { 64 ≤ length bytes.now }
    ensures { result ≡ words_at 16 0 bytes.now }
{
    [
        word_at(bytes, 0),
        word_at(bytes, 4),
        word_at(bytes, 8),
        word_at(bytes, 12),
        word_at(bytes, 16),
        word_at(bytes, 20),
        word_at(bytes, 24),
        word_at(bytes, 28),
        word_at(bytes, 32),
        word_at(bytes, 36),
        word_at(bytes, 40),
        word_at(bytes, 44),
        word_at(bytes, 48),
        word_at(bytes, 52),
        word_at(bytes, 56),
        word_at(bytes, 60),
    ]
}

// The message's last bytes, the byte 0x80 behind them, and zeros behind that.
fn marked_byte(rest: &[u8], at: usize) -> u8
    ensures { result ≡ slice_index (marked rest.now) at }
{
    if at < rest.len() {
        rest[at]
    } else if at == rest.len() {
        0x80
    } else {
        0
    }
}

fn marked_word(rest: &[u8], at: usize) -> u32
    requires { at ≤ 128 }
    ensures { result ≡ word_at at (marked rest.now) }
{
    word(
        marked_byte(rest, at),
        marked_byte(rest, at + 1),
        marked_byte(rest, at + 2),
        marked_byte(rest, at + 3),
    )
}

// A last block but one: the message's last bytes leave no room for the length.
fn marked_block(rest: &[u8]) -> [u32; 16]
    ensures { result ≡ words_at 16 0 (marked rest.now) }
{
    [
        marked_word(rest, 0),
        marked_word(rest, 4),
        marked_word(rest, 8),
        marked_word(rest, 12),
        marked_word(rest, 16),
        marked_word(rest, 20),
        marked_word(rest, 24),
        marked_word(rest, 28),
        marked_word(rest, 32),
        marked_word(rest, 36),
        marked_word(rest, 40),
        marked_word(rest, 44),
        marked_word(rest, 48),
        marked_word(rest, 52),
        marked_word(rest, 56),
        marked_word(rest, 60),
    ]
}

// The last block: fourteen words from place `at` on, then the length of a message of n bytes in bits.
fn closing_block(rest: &[u8], at: usize, n: usize) -> [u32; 16]
    requires { at ≤ 64 }
    ensures { result ≡ closing at n rest.now }
{
    [
        marked_word(rest, at),
        marked_word(rest, at + 4),
        marked_word(rest, at + 8),
        marked_word(rest, at + 12),
        marked_word(rest, at + 16),
        marked_word(rest, at + 20),
        marked_word(rest, at + 24),
        marked_word(rest, at + 28),
        marked_word(rest, at + 32),
        marked_word(rest, at + 36),
        marked_word(rest, at + 40),
        marked_word(rest, at + 44),
        marked_word(rest, at + 48),
        marked_word(rest, at + 52),
        upper_length(n),
        lower_length(n),
    ]
}

fn upper_length(n: usize) -> u32
    ensures { result ≡ 8 * n / 2 ^ 32 % 2 ^ 32 }
{
    ((n >> 29) % 0x1_0000_0000) as u32
}

fn lower_length(n: usize) -> u32
    ensures { result ≡ 8 * n % 2 ^ 32 }
{
    (n % 0x2000_0000 * 8) as u32
}
