// The refusals at start that are not the text's own: 401 to 403 before it is read, 415 and 416 behind its last
// statement.
ghost use Rattle.std.specs.Prelude.{not, ◌||◌, [], ◌∷◌, ◌≡◌, eqb, ltb, sum};
ghost use Rattle.checks.specs.Checks.{◌when◌, after};
ghost use Rattle.checks.specs.Refusals.{answer};
ghost use Rattle.passwords.specs.PasswordFile.{well_formed};
ghost use Rattle.begin.specs.Files.{password_files};
ghost use Rattle.begin.specs.Planned.{start_of, table_start};
ghost use Rattle.begin.specs.Filled.{file_bytes};
ghost use Rattle.begin.specs.Start.{early, no_room, bad_passwords};

use crate::files::Files;
use crate::planning;
use checks::Refusal;
use octets::span::Span;
use setup::Setup;
use state::Kept;
use std::array;

// 401 to 403.
#[tactic(auto, unfolding(crate::specs::Start::early, checks::specs::Checks::after, checks::specs::Checks::refused))]
pub(crate) fn early(count: u32, active: [bool; 8], text: &[u8], store: &[u8]) -> Result<(), Refusal>
    ensures { answer result ≡ early count active text.now store.now }
{
    setup::limits(count, active, text.len())?;
    if !image::good(store) {
        return Err(Refusal::BadStore);
    }
    Ok(())
}

// Things of these sizes need more than `limit` bytes. What is left is counted down, so that no sum wraps.
fn exceed(sizes: &[usize], limit: usize) -> bool
    ensures { result ≡ ltb limit (sum sizes.now) }
{
    let mut rest = limit;
    for &size in sizes {
        if rest < size {
            return true;
        }
        rest -= size;
    }
    false
}

// An arena of `limit` bytes is too short for the segments.
fn arena_short(setup: &Setup, files: &[Span; 16], limit: usize) -> bool
    ensures { result ≡ ltb limit (start_of setup.now files.now 32) }
{
    let sizes: [usize; 32] = array::from_fn(|row| planning::size_of(setup, files, row));
    exceed(&sizes, limit)
}

// A table area of `limit` bytes is too short for the password files.
fn tables_short(files: &[Span; 8], limit: usize) -> bool
    ensures { result ≡ ltb limit (table_start files.now 8) }
{
    exceed(&files.map(|file| file.length), limit)
}

// An area is too short. The screens are counted in the area and not multiplied, so that nothing wraps.
#[tactic(auto, unfolding(crate::specs::Start::no_room))]
fn no_room(setup: &Setup, files: &Files, kept: &Kept) -> bool
    ensures { result ≡ no_room setup.now files.now.dsegs files.now.passwords kept.now.arena kept.now.tables kept.now.screens }
{
    arena_short(setup, &files.dsegs, kept.arena)
        || tables_short(&files.passwords, kept.tables)
        || kept.screens / 2000 < setup.partitions
}

// A password file is missing or malformed. A file that was found does not stand at place 0, where a record's header
// would be.
#[tactic(auto, unfolding(crate::specs::Filled::file_bytes, octets::specs::Spans::bytes_of))]
fn bad_file(file: Span, store: &[u8]) -> bool
    ensures { result ≡ (eqb file.place 0 || not (well_formed (file_bytes store.now file))) }
{
    file.place == 0 || !passwords::well_formed(file.of(store))
}

// An active partition's password file is missing or malformed.
fn bad_passwords(setup: &Setup, files: &[Span; 8], store: &[u8]) -> bool
    requires { files.now ≡ password_files setup.now store.now }
    ensures { result ≡ bad_passwords 8 setup.now store.now }
{
    files
        .iter()
        .enumerate()
        .any(|(p, &file)| setup.is_active(p) && bad_file(file, store))
}

// 415 and 416, of areas as long as those kept.
#[tactic(auto, unfolding(checks::specs::Checks::after, checks::specs::Checks::refused))]
pub(crate) fn late(setup: &Setup, files: &Files, store: &[u8], kept: &Kept) -> Result<(), Refusal>
    requires { files.now.passwords ≡ password_files setup.now store.now }
    ensures { answer result ≡ after 0 ((415 when no_room setup.now files.now.dsegs files.now.passwords kept.now.arena kept.now.tables kept.now.screens) ∷ (416 when bad_passwords 8 setup.now store.now) ∷ []) }
{
    if no_room(setup, files, kept) {
        return Err(Refusal::NoMemory);
    }
    if bad_passwords(setup, &files.passwords, store) {
        return Err(Refusal::BadPasswords);
    }
    Ok(())
}
