// The words behind a line's first one, read by a pattern that has a letter for each:
// n a number, l the length of a lent buffer (at most 4,096), a the length of an area (at most 65,536),
// b bytes (at most 4,096), y one byte, s `set` or `clear`, o `yes` or `no`.
ghost use Rattle.std.specs.Prelude.{◌≡◌, ◌≤◌, get_or};
ghost use Rattle.replay_text.specs.Words.{number_of};
ghost use Rattle.replay_text.specs.Hex.{size_of, bytes_of};
ghost use Rattle.replay_text.specs.Arguments.{none, with_number, refused, kept, limit, of_number, choice};
ghost use Rattle.replay_text.specs.Arguments.{of_byte, told, laid, argument, arguments_of};

use super::{MOST, hex, words};
use octets::{parts, search};

// The most bytes that a call is lent.
const MOST_LENT: usize = 4096;

/// What was read: the numbers in their order (a length for bytes, 1 and 0 for a choice), and how many bytes were laid
/// into the lent row.
// Stays: a row of six and a count, since memory is fixed (docs/DECISIONS.md, "Forms that stay").
#[derive(Clone, Copy, Debug)]
pub struct Arguments {
    pub count: usize,
    pub numbers: [u32; 6],
    pub held: usize,
}

// What was read so far. Stays a flag beside the rest, and no Option: a refused word ends nothing. The bytes of the
// words behind it are laid all the same, each behind those before (`read_words` of specs/Arguments).
#[derive(Clone, Copy, Debug)]
struct Sofar {
    good: bool,
    count: usize,
    numbers: [u32; 6],
    held: usize,
}

impl Sofar {
    #[tactic(auto, unfolding(crate::specs::Arguments::none))]
    fn new() -> Self
        ensures { result ≡ none }
    {
        Sofar {
            good: true,
            count: 0,
            numbers: [0; 6],
            held: 0,
        }
    }

    #[tactic(auto, unfolding(crate::specs::Arguments::with_number))]
    fn push(&mut self, value: u32)
        ensures { self.new ≡ with_number value self.old }
    {
        if self.count < self.numbers.len() {
            self.numbers[self.count] = value;
            self.count += 1;
        }
    }

    #[tactic(auto, unfolding(crate::specs::Arguments::refused))]
    fn refuse(&mut self)
        ensures { self.new ≡ refused self.old }
    {
        self.good = false;
    }

    #[tactic(auto, unfolding(crate::specs::Arguments::kept, crate::specs::Arguments::gathered))]
    fn kept(&self) -> Result<Arguments, Arguments>
        ensures { result ≡ kept self.now }
    {
        let arguments = Arguments {
            count: self.count,
            numbers: self.numbers,
            held: self.held,
        };
        if !self.good {
            return Err(arguments);
        }
        Ok(arguments)
    }
}

// The highest number that a kind allows.
#[tactic(auto, unfolding(crate::specs::Arguments::limit))]
fn limit(kind: u8) -> u32
    ensures { result ≡ limit kind }
{
    match kind {
        b'l' => MOST_LENT as u32,
        b'a' => 65536,
        _ => u32::MAX,
    }
}

#[tactic(auto, unfolding(crate::specs::Arguments::of_number))]
fn number(sofar: &mut Sofar, most: u32, word: &[u8])
    ensures { sofar.new ≡ of_number most (number_of word.now) sofar.old }
{
    match words::number_of(word) {
        Some(value) if value <= u64::from(most) => sofar.push(value as u32),
        _ => sofar.refuse(),
    }
}

// One of two words: 1 for the first, 0 for the second.
#[tactic(auto, unfolding(crate::specs::Arguments::choice))]
fn choice(sofar: &mut Sofar, first: &[u8], second: &[u8], word: &[u8])
    ensures { sofar.new ≡ choice first.now second.now word.now sofar.old }
{
    if search::same(word, first) {
        sofar.push(1);
    } else if search::same(word, second) {
        sofar.push(0);
    } else {
        sofar.refuse();
    }
}

// Bytes, laid into the lent row behind those that are there.
#[tactic(auto, unfolding(crate::specs::Arguments::laid, crate::specs::Arguments::with_held))]
fn laid(sofar: &mut Sofar, word: &[u8], given: &mut [u8])
    ensures { told sofar.new given.new ≡ laid (size_of word.now) word.now sofar.old given.old }
{
    match hex::size_of(word) {
        Some(size) if size <= MOST_LENT => {
            let held = sofar.held;
            hex::decode(word, given, held);
            sofar.push(size as u32);
            sofar.held = parts::sum(held, size, MOST);
        }
        _ => sofar.refuse(),
    }
}

// Exactly two digits; the byte is the number.
#[tactic(auto, unfolding(crate::specs::Arguments::of_byte))]
fn one_byte(sofar: &mut Sofar, word: &[u8])
    ensures { sofar.new ≡ of_byte (size_of word.now) (get_or (bytes_of word.now) 0 0) sofar.old }
{
    let mut one = [0];
    hex::decode(word, &mut one, 0);
    match hex::size_of(word) {
        Some(1) => sofar.push(u32::from(one[0])),
        _ => sofar.refuse(),
    }
}

// One word, of the kind that the pattern says.
#[tactic(auto, unfolding(crate::specs::Arguments::argument, crate::specs::Arguments::told))]
fn argument(sofar: &mut Sofar, kind: u8, word: &[u8], given: &mut [u8])
    ensures { told sofar.new given.new ≡ argument kind word.now (told sofar.old given.old) }
{
    match kind {
        b'b' => laid(sofar, word, given),
        b'y' => one_byte(sofar, word),
        b's' => choice(sofar, b"set", b"clear", word),
        b'o' => choice(sofar, b"yes", b"no", word),
        _ => number(sofar, limit(kind), word),
    }
}

/// Reads the words from place `at` on. They have to be as many as the pattern has letters: a word that is missing is
/// read as an empty one, which no kind allows.
///
/// # Errors
///
/// Where a word is not of its kind, is missing, or is left, with what was read all the same: the numbers of the words
/// that are of their kind, and how many bytes were laid.
// No answer names the last test: an edit gives it another (docs/DECISIONS.md, "Fewer edits").
#[tactic(auto, unfolding(crate::specs::Arguments::told), using(crate::specs::ArgumentLaws::read_end_lem, crate::specs::ArgumentLaws::read_left))]
pub fn read(
    pattern: &[u8],
    line: &[u8],
    at: usize,
    given: &mut [u8],
) -> Result<Arguments, Arguments>
    ensures arguments { result ≡ kept (arguments_of pattern.now line.now at given.old).sofar }
    ensures given { given.new ≡ (arguments_of pattern.now line.now at given.old).given }
{
    let mut sofar = Sofar::new();
    let mut place = at;
    for &kind in pattern {
        let length = words::before(b' ', line, place);
        argument(&mut sofar, kind, parts::piece(line, place, length), given);
        place = parts::sum(place, length + 1, MOST);
    }
    if place <= line.len() {
        sofar.refuse();
    }
    sofar.kept()
}
