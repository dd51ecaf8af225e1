// The end of a DSEG or an MSEG statement: its host and its permissions.
ghost use Rattle.std.specs.Prelude.{◌≡◌};
ghost use Rattle.statements.specs.Statements.{permission_at, packed, permissions_at, tail_at};

use super::{Grants, Permission, Permissions};
use text::tokens;

// A permission, and the place behind it.
#[tactic(auto, unfolding(crate::specs::Statements::permission_at))]
fn permission_at(text: &[u8], at: usize) -> Option<(Permission, usize)>
    ensures { result ≡ permission_at text.now at }
{
    if let Some(next) = tokens::word_at(b"RW", text, at) {
        return Some((Permission::ReadWrite, next));
    }
    if let Some(next) = tokens::word_at(b"RO", text, at) {
        return Some((Permission::ReadOnly, next));
    }
    if let Some(next) = tokens::word_at(b"NA", text, at) {
        return Some((Permission::NoAccess, next));
    }
    None
}

// One permission more in the number that holds the last eight.
#[tactic(auto, unfolding(crate::specs::Statements::packed))]
fn packed(bits: u32, permission: Permission) -> u32
    ensures { result ≡ packed bits permission }
{
    (bits % 16384 * 4 + u32::from(permission.number())) % 65536
}

// Permissions, each behind a comma; each takes three bytes at least, so that there are fewer than the text has bytes.
#[tactic(auto, using(crate::specs::Rows::one_by_one))]
fn permissions_at(text: &[u8], at: usize) -> Option<(Permissions, usize)>
    ensures { result ≡ permissions_at text.now at }
{
    let mut bits: u32 = 0;
    let mut place = at;
    for count in 0..text.len() {
        let Some(behind) = tokens::word_at(b",", text, place) else {
            return Some((Permissions { count, bits }, place));
        };
        let (permission, next) = permission_at(text, behind)?;
        bits = packed(bits, permission);
        place = next;
    }
    None
}

/// `, host, permissions };`, with one permission at least, and the place behind it.
#[tactic(auto, unfolding(crate::specs::Statements::tail_at))]
pub fn tail_at(text: &[u8], at: usize) -> Option<(Grants, usize)>
    ensures { result ≡ tail_at text.now at }
{
    let at = tokens::word_at(b",", text, at)?;
    let (host, at) = tokens::number_at(text, at)?;
    let (permissions, at) = permissions_at(text, at)?;
    if permissions.count == 0 {
        return None;
    }
    let at = tokens::word_at(b"}", text, at)?;
    let at = tokens::word_at(b";", text, at)?;
    Some((Grants { host, permissions }, at))
}
