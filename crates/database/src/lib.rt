//! The configuration database: what a partition is told of its devices and of the segments it has a right to.
//!
//! An entry is made by itself, and laid behind those before it.
#![tactic(auto)]

ghost use Rattle.std.specs.Prelude.{◌≡◌, ◌≤◌, ◌<◌, [], ◌∷◌, ltb, length, replicate};
ghost use Rattle.octets.specs.Lists.{over, write_at};
ghost use Rattle.checks.specs.Checks.{◌when◌, after};
ghost use Rattle.checks.specs.Refusals.{answer};
ghost use Rattle.checks.specs.Told.{told};
ghost use Rattle.statements.specs.Statements.{number_of};
ghost use Rattle.database.specs.Database.{kind_of, selector_of, header, database};
ghost use Rattle.database.specs.Database.{entry as Database·entry};
ghost use Rattle.database.specs.Database.{configuration as Database·configuration};
ghost use Rattle.database.specs.Row.{spelled_all, entry_in, Laid, Rows};

use checks::{Refusal, number_behind};
use memory::rights;
use octets::{numbers, parts};
use state::{Plan, Segment};
use statements::Permission;

// How many bytes the database takes: a header, and an entry for each row of the permission table.
const SIZE: usize = 2584;

const HEADER: usize = 24;

const ENTRY: usize = 80;

// The rows of dsegs come first.
const DSEGS: usize = 16;

// Spells numbers of four bytes, one behind the other, from the row's start on.
fn put_numbers(to: &mut [u8], values: &[u32])
    requires { length values.now ≤ 6 }
    ensures { to.new ≡ write_at 0 (spelled_all values.now) to.old }
{
    for (i, &value) in values.iter().enumerate() {
        numbers::write32(to, 4 * i, value);
    }
}

// An entry: four numbers, and a path filled up with zeros.
fn entry(kind: u32, selector: u32, size: u32, right: Permission, path: &[u8]) -> [u8; 80]
    ensures { result ≡ Database·entry kind selector size (number_of right) path.now }
{
    let mut made = [0; ENTRY];
    put_numbers(
        &mut made,
        &[kind, selector, size, u32::from(right.number())],
    );
    parts::lay(path, &mut made, 16);
    made
}

// The kind of a row's segment.
// Stays: 1 for a dseg, 2 for an mseg, as a number. It is spelled at once, and an enum would be made and taken apart in
// one line.
#[tactic(auto, unfolding(crate::specs::Database::kind_of))]
fn kind_of(row: usize) -> u32
    ensures { result ≡ kind_of row }
{
    if row < DSEGS { 1 } else { 2 }
}

// The selector that reaches a row's segment.
#[tactic(auto, unfolding(crate::specs::Database::selector_of))]
fn selector_of(row: usize) -> u32
    requires { row < 32 }
    ensures { result ≡ selector_of row }
{
    let row = row as u32;
    if row < 16 {
        256 + row
    } else {
        512 + (row - 16)
    }
}

// The entry of a row's segment. A size is told by what four bytes hold of it.
fn entry_of(segment: &Segment, store: &[u8], right: Permission, row: usize) -> [u8; 80]
    requires { row < 32 }
    ensures { result ≡ entry_in segment.now store.now (number_of right) row }
{
    let size = segment.memory.length % 4294967296;
    entry(
        kind_of(row),
        selector_of(row),
        size as u32,
        right,
        segment.path.of(store),
    )
}

// Lays a row's entry behind `count` others, where the partition has a right to the segment, and says how many there are
// then.
#[tactic(auto, using(crate::proofs::RowRules::row_rules))]
fn put_row(
    segment: &Segment,
    right: Permission,
    store: &[u8],
    buffer: &mut [u8],
    row: usize,
    count: u32,
) -> u32
    requires row_bound { row < 32 }
    requires count_bound { count < 32 }
    ensures { Laid segment.now (number_of right) store.now row count result buffer.old buffer.new }
{
    if right.is_none() {
        return count;
    }
    let made = entry_of(segment, store, right, row);
    let at = HEADER + ENTRY * (count as usize);
    parts::lay(&made, buffer, at);
    count + 1
}

// Stays: the parameters are handed on as the public function has them.
// Lays the entries one behind the other, and says how many they are. The plan and the table are lent, so that no turn
// copies them.
fn put_entries(
    plan: &Plan,
    permissions: &[[u8; 8]; 32],
    partition: u32,
    store: &[u8],
    buffer: &mut [u8],
) -> u32
    ensures { Rows plan.now permissions.now store.now partition 32 result buffer.old buffer.new }
{
    let mut count = 0;
    for (row, segment) in plan.segments.iter().enumerate() {
        let right = rights::right(plan, permissions, row, partition);
        count = put_row(segment, right, store, buffer, row, count);
    }
    count
}

// The first six numbers: the version, major and minor of the keyboard, major and minor of the screen, and how many
// entries there are.
fn put_header(buffer: &mut [u8], partition: u32, count: u32)
    ensures { buffer.new ≡ write_at 0 (header partition count) buffer.old }
{
    put_numbers(buffer, &[1, 1, partition, 2, partition, count]);
}

// Makes the bytes that the database takes zero.
fn clear(buffer: &mut [u8])
    ensures { buffer.new ≡ over (replicate 2584 0) buffer.old }
{
    parts::fill(buffer, 0, SIZE, 0);
}

// Writes the database over the buffer's start.
fn put_database(
    plan: &Plan,
    permissions: &[[u8; 8]; 32],
    partition: u32,
    store: &[u8],
    buffer: &mut [u8],
)
    ensures { buffer.new ≡ over (database plan.now permissions.now store.now partition) buffer.old }
{
    clear(buffer);
    let count = put_entries(plan, permissions, partition, store, buffer);
    put_header(buffer, partition, count);
}

// What refuses a configuration.
#[tactic(auto, unfolding(checks::specs::Checks::after, checks::specs::Checks::refused))]
fn check(buffer: &[u8]) -> Result<(), Refusal>
    ensures { answer result ≡ after 0 ((214 when ltb (length buffer.now) 2584) ∷ []) }
{
    if buffer.len() < SIZE {
        return Err(Refusal::BadBuffer);
    }
    Ok(())
}

// Stays a number, n: each call promises an answer for every one (docs/DECISIONS.md, "Forms that stay").

/// Writes a partition's configuration database, of 2,584 bytes, to the buffer's start. `n` is the number of the common
/// checks, 0 where nothing is refused.
pub fn configuration(
    n: u32,
    plan: &Plan,
    permissions: &[[u8; 8]; 32],
    partition: u32,
    store: &[u8],
    buffer: &mut [u8],
) -> u32
    ensures { told result buffer.new ≡ Database·configuration n plan.now permissions.now store.now partition buffer.old }
{
    let fault = number_behind(n, check(buffer));
    if fault != 0 {
        return fault;
    }
    put_database(plan, permissions, partition, store, buffer);
    0
}
