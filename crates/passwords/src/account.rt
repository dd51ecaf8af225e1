// One record of a password file, as a slice of its own: the only place that knows a record's kind and what stands
// where in it.
ghost use Rattle.std.specs.Prelude.{◌≡◌};
ghost use Rattle.passwords.specs.Account.{name, digest_of, no_zero, shaped, obeys, changed};

use octets::{parts, search};
use rows::{Cursor, Step};

// Behind the header.
pub(crate) const DIGEST_START: usize = 6;

const DIGEST_LENGTH: usize = 32;

// The name.
#[tactic(auto, using(crate::specs::AccountLaws::name_part))]
pub(crate) fn name(entry: &[u8]) -> &[u8]
    ensures { result.now ≡ name entry.now }
{
    parts::piece(entry, DIGEST_START + DIGEST_LENGTH, entry.len())
}

// The digest in force.
#[tactic(auto, using(crate::specs::AccountLaws::digest_part))]
pub(crate) fn digest(entry: &[u8]) -> &[u8]
    ensures { result.now ≡ digest_of entry.now }
{
    parts::piece(entry, DIGEST_START, DIGEST_LENGTH)
}

// Whether no byte is zero.
// Stays: by the search for a zero. With `iter().all(..)` the proof did not close in three tries.
fn no_zero(title: &[u8]) -> bool
    ensures { result ≡ no_zero title.now }
{
    search::first_zero(title, title.len()) == title.len()
}

// Whether the record is as long as its header says and has room for a digest and a name of 1 to 32 bytes.
// Stays: `&` here and in `obeys`. With `&&` the proof falls apart where the branches join.
pub(crate) fn shaped(entry: &[u8]) -> bool
    ensures { result ≡ shaped entry.now }
{
    let Step::Record { next, .. } = Cursor::new().read(entry) else {
        return false;
    };
    let length = name(entry).len();
    (entry.len() == next.at) & ((1 <= length) & (length <= 32))
}

// Whether the record is of that shape, of kind 2, and has no zero in its name.
pub(crate) fn obeys(entry: &[u8]) -> bool
    ensures { result ≡ obeys entry.now }
{
    let Step::Record { kind, .. } = Cursor::new().read(entry) else {
        return false;
    };
    shaped(entry) & ((kind == 2) & no_zero(name(entry)))
}

// Puts a new digest in.
#[tactic(auto, using(crate::specs::AccountLaws::change_at))]
pub(crate) fn change(entry: &mut [u8], new: &[u8])
    ensures { entry.new ≡ changed new.now entry.old }
{
    parts::place(new, entry, DIGEST_START, DIGEST_LENGTH, 0);
}
