// What start writes into the lent areas, from its plan. What does not fit is not written, so that nothing is asked of
// the areas.
ghost use Rattle.std.specs.Prelude.{cond, ◌≡◌, ◌+◌, ◌*◌, ◌<◌, min, length, replicate};
ghost use Rattle.octets.specs.Lists.{over, write_at};
ghost use Rattle.state.specs.Parts.{is_active};
ghost use Rattle.begin.specs.Filled.{file_bytes, contents_of, arena_image, tables_image, blank_screen, cleared};

use octets::parts;
use octets::span::Span;
use state::Plan;

// Lays a file over an area from place `at` on. The answer is the place behind it, or the area's end.
#[tactic(auto, unfolding(crate::specs::Filled::file_bytes, octets::specs::Spans::bytes_of))]
fn put_file(store: &[u8], file: Span, area: &mut [u8], at: usize) -> usize
    ensures area_after { area.new ≡ write_at at (file_bytes store.now file) area.old }
    ensures value { result ≡ min (at + length (file_bytes store.now file)) (length area.old) }
{
    let contents = file.of(store);
    parts::lay(contents, area, at);
    parts::sum(at, contents.len(), area.len())
}

// Lays zeros over an area, as `put_file` lays a file.
fn put_zeros(n: usize, area: &mut [u8], at: usize) -> usize
    ensures area_after { area.new ≡ write_at at (replicate n 0) area.old }
    ensures value { result ≡ min (at + n) (length area.old) }
{
    parts::fill(area, at, n, 0);
    parts::sum(at, n, area.len())
}

// Fills one segment from place `at` of the arena on: a dseg with its file, an mseg with zeros.
#[tactic(auto, unfolding(crate::specs::Filled::contents_of, state::specs::Parts::segment_at))]
fn put_segment(plan: &Plan, store: &[u8], row: usize, arena: &mut [u8], at: usize) -> usize
    requires { row < 32 }
    ensures arena_after { arena.new ≡ write_at at (contents_of plan.now store.now row) arena.old }
    ensures value { result ≡ min (at + length (contents_of plan.now store.now row)) (length arena.old) }
{
    let segment = &plan.segments[row];
    if row < 16 {
        put_file(store, segment.file, arena, at)
    } else {
        put_zeros(segment.memory.length, arena, at)
    }
}

// Stays by number: a row is a dseg's or an mseg's by its number.
// Fills the arena without gaps: each dseg's file in order, then msegs of zeros.
#[tactic(auto, unfolding(crate::specs::Filled::arena_image, crate::specs::Each::joined, octets::specs::Lists::over), using(crate::specs::FilledLaws::laid_more, crate::specs::FilledLaws::place_more))]
pub(crate) fn fill_arena(plan: &Plan, store: &[u8], arena: &mut [u8])
    ensures { arena.new ≡ over (arena_image plan.now store.now) arena.old }
{
    let mut at = 0;
    for row in 0..32 {
        at = put_segment(plan, store, row, arena, at);
    }
}

// Fills the table area with each active partition's password file.
#[tactic(auto, unfolding(crate::specs::Filled::tables_image, crate::specs::Filled::table_of, state::specs::Parts::seat_at, crate::specs::Each::joined, octets::specs::Lists::over), using(crate::specs::FilledLaws::laid_more, crate::specs::FilledLaws::place_more))]
pub(crate) fn fill_tables(plan: &Plan, store: &[u8], tables: &mut [u8])
    ensures { tables.new ≡ over (tables_image plan.now store.now) tables.old }
{
    let mut at = 0;
    for seat in &plan.seats {
        at = put_file(store, seat.file, tables, at);
    }
}

// Makes partition p's screen spaces, if the partition is active.
#[tactic(auto, unfolding(crate::specs::Filled::blank_screen))]
fn clear_screen(plan: &Plan, p: usize, screens: &mut [u8])
    requires { p < 8 }
    ensures { screens.new ≡ cond (is_active plan.now p) (write_at (2000 * p) blank_screen screens.old) screens.old }
{
    if plan.is_active(p) {
        parts::fill(screens, 2000 * p, 2000, b' ');
    }
}

// Makes the active partitions' screens spaces.
#[tactic(auto, unfolding(crate::specs::Filled::cleared), using(crate::specs::FilledLaws::cleared_more))]
pub(crate) fn clear_screens(plan: &Plan, screens: &mut [u8])
    ensures { screens.new ≡ cleared plan.now 8 screens.old }
{
    for p in 0..8 {
        clear_screen(plan, p, screens);
    }
}
