//! What a login record says of a table.
ghost use Rattle.std.specs.Prelude.{◌≡◌};
ghost use Rattle.accounts.specs.Users.{is_user, place_of, placed, user_name};

use octets::parts;
use state::{Login, LoginRecord};

// Whether someone is logged in.
#[tactic(auto, unfolding(crate::specs::Users::is_user))]
pub(crate) fn is_user(held: LoginRecord) -> bool
    ensures { result ≡ is_user held.user }
{
    matches!(held.user, Login::User { .. })
}

// The user's record; 0 where there is no user.
// Stays: a number, as `place_of` of specs/Users. It is asked for behind the check that somebody is logged in, where an
// Option would need a way out that no call takes.
#[tactic(auto, unfolding(crate::specs::Users::place_of))]
pub(crate) fn place_of(held: LoginRecord) -> usize
    ensures { result ≡ place_of held.user }
{
    match held.user {
        Login::Nobody => 0,
        Login::User { place } => place,
    }
}

// Whether the user, if there is one, is one of so many records.
#[tactic(auto, unfolding(crate::specs::Users::placed))]
pub(crate) fn placed(held: LoginRecord, records: usize) -> bool
    ensures { result ≡ placed held.user records }
{
    match held.user {
        Login::Nobody => true,
        Login::User { place } => place < records,
    }
}

// The user's name; the empty part for nobody.
#[tactic(auto, unfolding(crate::specs::Users::user_name, octets::specs::Lists::part))]
pub(crate) fn user_name(held: LoginRecord, table: &[u8]) -> &[u8]
    ensures { result.now ≡ user_name held.user table.now }
{
    match held.user {
        Login::Nobody => parts::piece(table, 0, 0),
        Login::User { place } => passwords::name_at(table, place),
    }
}
