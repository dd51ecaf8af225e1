//! The strings that a caller hands in: they end at their first zero.
ghost use Rattle.std.specs.Prelude.{◌≡◌};
ghost use Rattle.accounts.specs.Strings.{is_string, string_of};

use octets::{parts, search};

// At most 32 bytes and the zero.
const MOST: usize = 33;

// Whether a zero stands at place 0 to 32.
// Stays: a test and the string, as specs/Strings has them. A call's checks stand before its work, so an Option would be
// taken apart in the checks and once more in the work.
pub(crate) fn is_string(s: &[u8]) -> bool
    ensures { result ≡ is_string s.now }
{
    search::first_zero(s, MOST) < MOST.min(s.len())
}

// The bytes before that zero.
pub(crate) fn string_of(s: &[u8]) -> &[u8]
    ensures { result.now ≡ string_of s.now }
{
    parts::piece(s, 0, search::first_zero(s, MOST))
}
