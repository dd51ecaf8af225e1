//! Which right a partition has to a segment: selectors and permissions.
ghost use Rattle.std.specs.Prelude.{◌≡◌, get_or, replicate};
ghost use Rattle.statements.specs.Statements.{number_of};
ghost use Rattle.memory.specs.Rights.{row_of, right_of};
ghost use Rattle.memory.specs.Rights.{declared as Rights·declared};
ghost use Rattle.memory.specs.Rights.{permission as Rights·permission};
ghost use Rattle.memory.specs.Rights.{reach as Rights·reach};

use super::Reach;
use state::Plan;
use statements::Permission;

// The rows of the permission table: dseg i is row i, mseg i is row 16 + i.
const ROWS: usize = 32;

const DSEGS: usize = 16;

// Stays: no `TryFrom`, since no number is refused.
// The right of a number. Any number but RO and RW counts as NA.
#[tactic(auto, unfolding(crate::specs::Rights::permission))]
fn permission(number: u8) -> Permission
    ensures { number_of result ≡ Rights·permission number }
{
    match number {
        1 => Permission::ReadOnly,
        2 => Permission::ReadWrite,
        _ => Permission::NoAccess,
    }
}

// The row of a selector's segment in the permission table.
// Stays: 32, behind the last row, where the selector names none, as `row_of` of specs/Rights has it. All that reads a
// row takes such a one for an empty segment without a right, so that an `Option` would only be taken apart again.
#[tactic(auto, unfolding(crate::specs::Rights::row_of))]
fn row_of(selector: u32) -> usize
    ensures { result ≡ row_of selector }
{
    match selector {
        256..=271 => selector as usize - 256,
        512..=527 => selector as usize - 512 + DSEGS,
        _ => ROWS,
    }
}

// Whether a row is one of the plan's dsegs or msegs.
#[tactic(auto, unfolding(crate::specs::Rights::declared))]
fn declared(plan: &Plan, row: usize) -> bool
    ensures { result ≡ Rights·declared plan.now row }
{
    if row < DSEGS {
        return row < plan.dsegs;
    }
    row - DSEGS < plan.msegs
}

// A row's number for a partition; 0 where the row has none.
fn number_in(numbers: &[u8; 8], partition: u32) -> u8
    ensures { result ≡ get_or numbers.now partition 0 }
{
    numbers.get(partition as usize).copied().unwrap_or(0)
}

// The table's number for a row and a partition; 0 where it has none.
fn number_at(permissions: &[[u8; 8]; 32], row: usize, partition: u32) -> u8
    ensures { result ≡ get_or (get_or permissions.now row (replicate 8 0)) partition 0 }
{
    if row >= ROWS {
        return 0;
    }
    number_in(&permissions[row], partition)
}

/// What a partition may do to the segment of a row, 0 to 31.
#[tactic(auto, unfolding(crate::specs::Rights::right_of))]
pub fn right(plan: &Plan, permissions: &[[u8; 8]; 32], row: usize, partition: u32) -> Permission
    ensures { number_of result ≡ right_of plan.now permissions.now row partition }
{
    if declared(plan, row) {
        permission(number_at(permissions, row, partition))
    } else {
        Permission::NoAccess
    }
}

/// What a selector gives a partition; no right where the selector names no segment of its list.
#[tactic(auto, unfolding(crate::specs::Rights::reach))]
pub fn reach(plan: &Plan, permissions: &[[u8; 8]; 32], partition: u32, selector: u32) -> Reach
    ensures { result ≡ Rights·reach plan.now permissions.now partition selector }
{
    let row = row_of(selector);
    Reach {
        right: right(plan, permissions, row, partition).number(),
        mapped: row < DSEGS,
        segment: plan.segment(row),
    }
}
