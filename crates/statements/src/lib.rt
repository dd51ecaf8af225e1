//! One statement of the set-up text at a time. It is read as it stands; whether it may stand there is judged above.
//! Every function takes any text and any place in it.
#![tactic(auto)]

use octets::span::Span;
use text::tokens;

mod ends;

ghost use Rattle.std.specs.Prelude.{◌≡◌, eqb};
ghost use Rattle.statements.specs.Statements.{kind_at, head_at, code_at, dseg_at, mseg_at};

/// Which statement the next token begins, and the place behind that token.
// Stays: four cases, as the statements are. An `Option` of a word and a place would be taken apart twice.
#[derive(Clone, Copy, Debug, PartialEq, Eq)]
pub enum Kind {
    Code(usize),
    Dseg(usize),
    Mseg(usize),
    Other,
}

/// What a partition may do with a segment.
#[derive(Clone, Copy, Debug, PartialEq, Eq)]
pub enum Permission {
    /// NA
    NoAccess,
    /// RO
    ReadOnly,
    /// RW
    ReadWrite,
}

impl Permission {
    ghost use Rattle.statements.specs.Statements.{number_of};

    /// Its number: 0 NA, 1 RO, 2 RW.
    pub fn number(self) -> u8
        ensures { result ≡ number_of self }
    {
        match self {
            Permission::NoAccess => 0,
            Permission::ReadOnly => 1,
            Permission::ReadWrite => 2,
        }
    }

    /// Whether it is no right at all, NA.
    pub fn is_none(self) -> bool
        ensures { result ≡ eqb (number_of self) 0 }
    {
        matches!(self, Permission::NoAccess)
    }
}

/// How many permissions a statement gives, and the last eight of them, two bits for each, the last one lowest.
// Stays a number: a row of eight permissions that is moved on for each one more says no more.
#[derive(Clone, Copy, Debug, PartialEq, Eq)]
pub struct Permissions {
    pub count: usize,
    pub bits: u32,
}

/// The end of a DSEG or an MSEG: its host and its permissions.
#[derive(Clone, Copy, Debug, PartialEq, Eq)]
pub struct Grants {
    pub host: u64,
    pub permissions: Permissions,
}

/// What stands at a place, and the place behind it.
// Stays: an answer that the caller takes apart by `let .. else`, whose else arm is the refusal (docs/DECISIONS.md,
// "Forms that stay").
#[derive(Clone, Copy, Debug, PartialEq, Eq)]
pub enum Statement {
    /// `CODE[partition] = path;`
    Code {
        partition: u64,
        path: Span,
        next: usize,
    },
    /// `DSEG[index] = { path, host, permissions };`
    Dseg {
        index: u64,
        path: Span,
        grants: Grants,
        next: usize,
    },
    /// `MSEG[index] = { size, host, permissions };`
    Mseg {
        index: u64,
        size: u64,
        grants: Grants,
        next: usize,
    },
    Malformed,
}

/// Which statement the next token begins.
#[tactic(auto, unfolding(crate::specs::Statements::kind_at))]
pub fn kind_at(text: &[u8], at: usize) -> Kind
    ensures { result ≡ kind_at text.now at }
{
    if let Some(next) = tokens::word_at(b"CODE", text, at) {
        return Kind::Code(next);
    }
    if let Some(next) = tokens::word_at(b"DSEG", text, at) {
        return Kind::Dseg(next);
    }
    if let Some(next) = tokens::word_at(b"MSEG", text, at) {
        return Kind::Mseg(next);
    }
    Kind::Other
}

// `[number] =`, and the place behind it.
#[tactic(auto, unfolding(crate::specs::Statements::head_at))]
fn head_at(text: &[u8], at: usize) -> Option<(u64, usize)>
    ensures { result ≡ head_at text.now at }
{
    let at = tokens::word_at(b"[", text, at)?;
    let (number, at) = tokens::number_at(text, at)?;
    let at = tokens::word_at(b"]", text, at)?;
    let at = tokens::word_at(b"=", text, at)?;
    Some((number, at))
}

/// A CODE statement, from behind its word.
#[tactic(auto, unfolding(crate::specs::Statements::code_at))]
pub fn code_at(text: &[u8], at: usize) -> Statement
    ensures { result ≡ code_at text.now at }
{
    let Some((partition, at)) = head_at(text, at) else {
        return Statement::Malformed;
    };
    let Some((path, at)) = tokens::path_at(text, at) else {
        return Statement::Malformed;
    };
    let Some(next) = tokens::word_at(b";", text, at) else {
        return Statement::Malformed;
    };
    Statement::Code {
        partition,
        path,
        next,
    }
}

// Stay two functions: what differs is what stands behind the brace, and each is read in the order of the text.
/// A DSEG statement, from behind its word.
#[tactic(auto, unfolding(crate::specs::Statements::dseg_at))]
pub fn dseg_at(text: &[u8], at: usize) -> Statement
    ensures { result ≡ dseg_at text.now at }
{
    let Some((index, at)) = head_at(text, at) else {
        return Statement::Malformed;
    };
    let Some(at) = tokens::word_at(b"{", text, at) else {
        return Statement::Malformed;
    };
    let Some((path, at)) = tokens::path_at(text, at) else {
        return Statement::Malformed;
    };
    let Some((grants, next)) = ends::tail_at(text, at) else {
        return Statement::Malformed;
    };
    Statement::Dseg {
        index,
        path,
        grants,
        next,
    }
}

/// An MSEG statement, from behind its word.
#[tactic(auto, unfolding(crate::specs::Statements::mseg_at))]
pub fn mseg_at(text: &[u8], at: usize) -> Statement
    ensures { result ≡ mseg_at text.now at }
{
    let Some((index, at)) = head_at(text, at) else {
        return Statement::Malformed;
    };
    let Some(at) = tokens::word_at(b"{", text, at) else {
        return Statement::Malformed;
    };
    let Some((size, at)) = tokens::size_at(text, at) else {
        return Statement::Malformed;
    };
    let Some((grants, next)) = ends::tail_at(text, at) else {
        return Statement::Malformed;
    };
    Statement::Mseg {
        index,
        size,
        grants,
        next,
    }
}
