//! A partition's memory: load, store and flush of what a selector reaches.
//!
//! No public function asks anything of its arguments. `n` is the number of the common checks, 0 where nothing is
//! refused.
#![tactic(auto)]

ghost use Rattle.std.specs.Prelude.{◌≡◌, ◌+◌, eqb, ltb};
ghost use Rattle.checks.specs.Checks.{after};
ghost use Rattle.checks.specs.Refusals.{answer};
ghost use Rattle.checks.specs.Told.{told};
ghost use Rattle.memory.specs.Memory.{load_checks, store_checks, flush_checks};
ghost use Rattle.memory.specs.Memory.{load as Memory·load};
ghost use Rattle.memory.specs.Memory.{store as Memory·store};
ghost use Rattle.memory.specs.Memory.{flush as Memory·flush};

use checks::{Refusal, number_behind};
use octets::parts;
use state::Segment;
use statements::Permission;

pub mod rights;

/// What a selector gives a partition: the number of its right (0 NA, 1 RO, 2 RW), whether a file is mapped there (a
/// dseg), and the segment.
// Stays: the right is a number, and `mapped` stands beside the segment. `load`, `store` and `flush` promise an answer
// for every number, and a segment of the plan has a place for a file in any row (docs/DECISIONS.md, "Forms that stay").
#[derive(Clone, Copy, Debug, PartialEq, Eq)]
pub struct Reach {
    pub right: u8,
    pub mapped: bool,
    pub segment: Segment,
}

impl Reach {
    // Whether there is no right at all, NA.
    fn is_none(&self) -> bool
        ensures { result ≡ eqb self.now.right 0 }
    {
        self.right == Permission::NoAccess.number()
    }

    // Whether it allows a store and a flush.
    fn writes(&self) -> bool
        ensures { result ≡ eqb self.now.right 2 }
    {
        self.right == Permission::ReadWrite.number()
    }
}

// Whether a range of n bytes from `offset` on leaves a segment of `size` bytes. The sum is not formed, so it cannot
// wrap.
fn leaves(size: usize, offset: usize, n: usize) -> bool
    ensures { result ≡ ltb size (offset + n) }
{
    size < offset || size - offset < n
}

// What refuses a load of `room` bytes.
#[tactic(auto, unfolding(checks::specs::Checks::after, checks::specs::Checks::refused, crate::specs::Memory::load_checks))]
fn load_check(reach: &Reach, offset: usize, room: usize) -> Result<(), Refusal>
    ensures { answer result ≡ after 0 (load_checks reach.now offset room) }
{
    if reach.is_none() {
        return Err(Refusal::BadSelector);
    }
    if leaves(reach.segment.memory.length, offset, room) {
        return Err(Refusal::BadOffset);
    }
    Ok(())
}

// Stays a number, n: each call promises an answer for every one (docs/DECISIONS.md, "Forms that stay").

/// Copies a segment's bytes from `offset` on into the buffer, as many as the buffer holds.
pub fn load(n: u32, reach: Reach, offset: u32, arena: &[u8], buffer: &mut [u8]) -> u32
    ensures { told result buffer.new ≡ Memory·load n reach offset arena.now buffer.old }
{
    let from = offset as usize;
    let fault = number_behind(n, load_check(&reach, from, buffer.len()));
    if fault != 0 {
        return fault;
    }
    let bytes = reach.segment.memory.of(arena);
    parts::lay(parts::piece(bytes, from, buffer.len()), buffer, 0);
    0
}

// What refuses a store of `room` bytes.
#[tactic(auto, unfolding(checks::specs::Checks::after, checks::specs::Checks::refused, crate::specs::Memory::store_checks))]
fn store_check(reach: &Reach, offset: usize, room: usize) -> Result<(), Refusal>
    ensures { answer result ≡ after 0 (store_checks reach.now offset room) }
{
    if reach.is_none() {
        return Err(Refusal::BadSelector);
    }
    if !reach.writes() {
        return Err(Refusal::NoWrite);
    }
    if leaves(reach.segment.memory.length, offset, room) {
        return Err(Refusal::BadOffset);
    }
    Ok(())
}

/// Copies bytes over a segment's from `offset` on.
#[tactic(auto, using(checks::specs::Laws::behind_after), unfolding(crate::specs::Memory::store, checks::specs::Settle::settle))]
pub fn store(n: u32, reach: Reach, offset: u32, bytes: &[u8], arena: &mut [u8]) -> u32
    ensures { told result arena.new ≡ Memory·store n reach offset bytes.now arena.old }
{
    let from = offset as usize;
    let fault = number_behind(n, store_check(&reach, from, bytes.len()));
    if fault != 0 {
        return fault;
    }
    let memory = reach.segment.memory;
    parts::place(bytes, arena, memory.place, memory.length, from);
    0
}

// What refuses a flush.
#[tactic(auto, unfolding(checks::specs::Checks::after, checks::specs::Checks::refused, crate::specs::Memory::flush_checks))]
fn flush_check(reach: &Reach) -> Result<(), Refusal>
    ensures { answer result ≡ after 0 (flush_checks reach.now) }
{
    if reach.is_none() {
        return Err(Refusal::BadSelector);
    }
    if !reach.mapped {
        return Err(Refusal::NotMapped);
    }
    if !reach.writes() {
        return Err(Refusal::NoWrite);
    }
    Ok(())
}

/// Writes a dseg's first bytes, as many as the store will take, over its file in the store; 203 where that is less than
/// the dseg.
pub fn flush(n: u32, reach: Reach, taken: u32, arena: &[u8], store: &mut [u8]) -> u32
    ensures { told result store.new ≡ Memory·flush n reach taken arena.now store.old }
{
    let count = taken as usize;
    let fault = number_behind(n, flush_check(&reach));
    if fault != 0 {
        return fault;
    }
    let Segment { memory, file, .. } = reach.segment;
    parts::place(
        parts::piece(memory.of(arena), 0, count),
        store,
        file.place,
        file.length,
        0,
    );
    if count < memory.length {
        return Refusal::WriteFailure.number();
    }
    0
}
