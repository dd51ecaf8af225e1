// The checks on one statement and on a whole text, in their order.
ghost use Rattle.std.specs.Prelude.{not, ◌&&◌, ◌||◌, ◌≡◌};
ghost use Rattle.checks.specs.Checks.{after};
ghost use Rattle.checks.specs.Refusals.{answer};
ghost use Rattle.octets.specs.Same.{same_bytes};
ghost use Rattle.octets.specs.Spans.{bytes_of};
ghost use Rattle.setup.specs.Setup.{path_taken, permission_of, permission_row};
ghost use Rattle.setup.specs.Rules.{reserved, absent, some_writes, code_checks, dseg_checks, mseg_checks, code_missing, some_active, dseg_broken, mseg_broken, bad_partitions};
ghost use Rattle.setup.specs.Views.{rank_of};

use super::judging::{Progress, Rank, Reading};
use super::{Setup, Span};
use checks::Refusal;
use octets::{parts, search};
use statements::{Grants, Permissions};
use std::array;

// How many segments of a kind there may be.
const SEGMENTS: usize = 16;

// The largest mseg, in bytes.
const LARGEST: u64 = 16_777_216;

// Permissions in a segment's row, which has them as numbers, as the permission table does.
const NO_ACCESS: u8 = 0;

const READ_WRITE: u8 = 2;

// Some partition, of the `count` first, is active.
fn some_active(count: u32, active: [bool; 8]) -> bool
    ensures { result ≡ some_active count active }
{
    active.iter().take(count as usize).any(|flag| *flag)
}

// The partition count is not 1 to 8, or none is active.
pub fn bad_partitions(count: u32, active: [bool; 8]) -> bool
    ensures { result ≡ bad_partitions count active }
{
    !(1..=8).contains(&count) || !some_active(count, active)
}

// The path is one of those that are kept for the terminal itself.
#[tactic(auto, unfolding(crate::specs::Rules::reserved, octets::specs::Lists::part))]
fn reserved(path: &[u8]) -> bool
    ensures { result ≡ reserved path.now }
{
    search::same(parts::piece(path, 0, 6), b"/scos/")
}

// The path has to be in the image, and is not.
#[tactic(auto, unfolding(crate::specs::Rules::absent, image::specs::Image::was_found))]
fn absent(look: bool, image: &[u8], path: &[u8]) -> bool
    ensures { result ≡ absent look image.now path.now }
{
    look && image::find(image, path).is_none()
}

// The path that stands in the text at a span is this one.
fn same_path(text: &[u8], span: Span, path: &[u8]) -> bool
    ensures { result ≡ same_bytes (bytes_of text.now span) path.now }
{
    search::same(span.of(text), path)
}

// The path equals an earlier DSEG or CODE path.
fn path_taken(text: &[u8], path: &[u8], setup: &Setup) -> bool
    ensures { result ≡ path_taken text.now path.now setup.now }
{
    let of_code = setup.code.iter().any(|code| same_path(text, *code, path));
    let of_dseg = setup
        .dsegs
        .iter()
        .any(|dseg| same_path(text, dseg.path, path));
    of_code | of_dseg
}

// Of these permissions, that of partition p.
fn permission_of(permissions: Permissions, p: usize) -> u8
    ensures { result ≡ permission_of permissions.count permissions.bits p }
{
    if permissions.count <= p {
        return 0;
    }
    let behind = permissions.count - 1 - p;
    if 16 <= behind {
        return 0;
    }
    ((permissions.bits >> (2 * behind)) % 4) as u8
}

// The permissions of the eight partitions.
#[tactic(auto, unfolding(crate::specs::Setup::permission_row))]
pub fn permission_row(permissions: Permissions) -> [u8; 8]
    ensures { result ≡ permission_row permissions.count permissions.bits }
{
    array::from_fn(|p| permission_of(permissions, p))
}

// Some active partition has RW.
fn some_writes(setup: &Setup, permissions: Permissions) -> bool
    ensures { result ≡ some_writes setup.now.partitions setup.now permissions.count permissions.bits }
{
    (0..setup.partitions).any(|p| setup.is_active(p) && permission_of(permissions, p) == READ_WRITE)
}

// An active partition has no CODE.
pub fn code_missing(setup: &Setup) -> bool
    ensures { result ≡ code_missing 8 setup.now }
{
    (0..8).any(|p| setup.is_active(p) && !setup.has_code(p))
}

// The first refusal that is due for CODE[p] = path.
#[tactic(auto, unfolding(crate::specs::Rules::code_checks, checks::specs::Checks::after, checks::specs::Checks::refused))]
pub fn code_checked(
    reading: Reading<'_>,
    before: &Progress,
    p: usize,
    path: &[u8],
) -> Result<(), Refusal>
    ensures { answer result ≡ after 0 (code_checks reading.entry.look reading.entry.image.now (rank_of before.now.rank) before.now.setup p path.now) }
{
    if Rank::Code < before.rank {
        return Err(Refusal::Syntax);
    }
    if !before.setup.is_active(p) {
        return Err(Refusal::BadPartitionNumber);
    }
    if before.setup.has_code(p) {
        return Err(Refusal::DupCode);
    }
    if reserved(path) {
        return Err(Refusal::Reserved);
    }
    if absent(reading.look, reading.image, path) {
        return Err(Refusal::NoFile);
    }
    Ok(())
}

// A wrong number of permissions, or NA for an active host.
fn dseg_broken(setup: &Setup, host: usize, permissions: Permissions) -> bool
    ensures { result ≡ dseg_broken setup.now host permissions.count permissions.bits }
{
    permissions.count != setup.partitions
        || setup.is_active(host) && permission_of(permissions, host) == NO_ACCESS
}

// A wrong number of permissions, or RW for no active partition.
fn mseg_broken(setup: &Setup, permissions: Permissions) -> bool
    ensures { result ≡ mseg_broken setup.now permissions.count permissions.bits }
{
    permissions.count != setup.partitions || !some_writes(setup, permissions)
}

// The first refusal that is due for DSEG[index] = { path, grants }.
#[tactic(auto, unfolding(crate::specs::Rules::dseg_checks, checks::specs::Checks::after, checks::specs::Checks::refused))]
pub fn dseg_checked(
    reading: Reading<'_>,
    before: &Progress,
    index: usize,
    path: &[u8],
    grants: Grants,
) -> Result<(), Refusal>
    ensures { answer result ≡ after 0 (dseg_checks reading.entry.look reading.entry.image.now reading.entry.text.now (rank_of before.now.rank) before.now.setup index path.now grants.host grants.permissions.count grants.permissions.bits) }
{
    let host = grants.host as usize;
    if Rank::Dseg < before.rank {
        return Err(Refusal::Syntax);
    }
    if SEGMENTS <= before.setup.dsegcount {
        return Err(Refusal::TooMany);
    }
    if index != before.setup.dsegcount {
        return Err(Refusal::BadIndex);
    }
    if before.setup.partitions <= host {
        return Err(Refusal::BadPartitionNumber);
    }
    if path_taken(reading.text, path, &before.setup) {
        return Err(Refusal::DupPath);
    }
    if reserved(path) {
        return Err(Refusal::Reserved);
    }
    if absent(reading.look, reading.image, path) {
        return Err(Refusal::NoFile);
    }
    if dseg_broken(&before.setup, host, grants.permissions) {
        return Err(Refusal::BadPerms);
    }
    Ok(())
}

// The first refusal that is due for MSEG[index] = { size, grants }.
#[tactic(auto, unfolding(crate::specs::Rules::mseg_checks, checks::specs::Checks::after, checks::specs::Checks::refused))]
pub fn mseg_checked(setup: &Setup, index: usize, size: u64, grants: Grants) -> Result<(), Refusal>
    ensures { answer result ≡ after 0 (mseg_checks setup.now index size grants.host grants.permissions.count grants.permissions.bits) }
{
    if SEGMENTS <= setup.msegcount {
        return Err(Refusal::TooMany);
    }
    if index != setup.msegcount {
        return Err(Refusal::BadIndex);
    }
    if setup.partitions <= grants.host as usize {
        return Err(Refusal::BadPartitionNumber);
    }
    if size == 0 || LARGEST < size {
        return Err(Refusal::BadSize);
    }
    if mseg_broken(setup, grants.permissions) {
        return Err(Refusal::BadPerms);
    }
    Ok(())
}
