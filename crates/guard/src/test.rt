// The state test (docs/BAD_STATE.md): whether a place or a count, in the plan or in the state, leads outside its area.
//
// Sums of a place and a length are never made: they could wrap.
ghost use Rattle.std.specs.Prelude.{◌≡◌};
ghost use Rattle.guard.specs.Test.{all_of, inside, good_segment, good_seat, good_partition, good_counts, good_plan};
ghost use Rattle.guard.specs.Test.{good};

use devices::keyboard::Keyboard;
use devices::screen::CELLS;
use octets::span::Span;
use state::{Kept, PARTITIONS, Partition, Plan, Seat, Segment, State};

// How many dsegs, and how many msegs, there can be.
const OF_A_KIND: usize = 16;

// A place with its length lies inside an area of so many bytes.
#[tactic(auto, unfolding(crate::specs::Test::inside))]
fn inside(span: Span, area: usize) -> bool
    ensures { result ≡ inside span area }
{
    span.place <= area && span.length <= area - span.place
}

#[tactic(auto, unfolding(crate::specs::Test::good_segment))]
fn good_segment(kept: &Kept, segment: &Segment) -> bool
    ensures { result ≡ good_segment kept.now segment.now }
{
    inside(segment.memory, kept.arena)
        && inside(segment.file, kept.store)
        && inside(segment.path, kept.store)
}

#[tactic(auto, unfolding(crate::specs::Test::good_seat))]
fn good_seat(kept: &Kept, seat: &Seat) -> bool
    ensures { result ≡ good_seat kept.now seat.now }
{
    inside(seat.table, kept.tables) && inside(seat.file, kept.store)
}

// The cursor is a place of a screen, and the queue holds at most 64.
#[tactic(auto, unfolding(crate::specs::Test::good_partition))]
fn good_partition(part: &Partition) -> bool
    ensures { result ≡ good_partition part.now }
{
    part.cursor < CELLS && part.keyboard.held <= Keyboard::ROOM
}

// Stay three functions: over any row each would be handed its one line as a closure.
#[tactic(auto, unfolding(crate::specs::Test::all_of))]
fn good_segments(kept: &Kept, segments: &[Segment]) -> bool
    ensures { result ≡ all_of (good_segment kept.now) segments.now }
{
    segments.iter().all(|segment| good_segment(kept, segment))
}

#[tactic(auto, unfolding(crate::specs::Test::all_of))]
fn good_seats(kept: &Kept, seats: &[Seat]) -> bool
    ensures { result ≡ all_of (good_seat kept.now) seats.now }
{
    seats.iter().all(|seat| good_seat(kept, seat))
}

#[tactic(auto, unfolding(crate::specs::Test::all_of))]
fn good_partitions(partitions: &[Partition]) -> bool
    ensures { result ≡ all_of good_partition partitions.now }
{
    partitions.iter().all(|part| good_partition(part))
}

// There are 1 to 8 partitions, at most 16 dsegs and at most 16 msegs.
#[tactic(auto, unfolding(crate::specs::Test::good_counts))]
fn good_counts(plan: &Plan) -> bool
    ensures { result ≡ good_counts plan.now }
{
    (1..=PARTITIONS).contains(&plan.count) && plan.dsegs <= OF_A_KIND && plan.msegs <= OF_A_KIND
}

// The counts, and all places that start fixed, the screens' too.
#[tactic(auto, unfolding(crate::specs::Test::good_plan))]
fn good_plan(plan: &Plan) -> bool
    ensures { result ≡ good_plan plan.now }
{
    good_counts(plan)
        && CELLS * plan.count <= plan.kept.screens
        && good_seats(&plan.kept, &plan.seats)
        && good_segments(&plan.kept, &plan.segments)
}

/// Nothing in the plan or the state leads outside its area, and the focus is on an active partition.
#[tactic(auto, unfolding(crate::specs::Test::good))]
pub fn good(plan: &Plan, state: &State) -> bool
    ensures { result ≡ good plan.now state.now }
{
    good_plan(plan) && plan.is_active(state.focus) && good_partitions(&state.partitions)
}
