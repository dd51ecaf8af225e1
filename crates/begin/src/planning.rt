// What start fixes: the places of segments and password tables, and the partition that has the focus.
ghost use Rattle.std.specs.Prelude.{◌≡◌, ◌<◌, ◌≤◌, ◌^◌};
ghost use Rattle.octets.specs.Spans.{span};
ghost use Rattle.begin.specs.Each.{firsts};
ghost use Rattle.begin.specs.Planned.{path_of, size_of, start_of, segment_of, table_start, seat_of, planned, lowest, first_state};

use crate::files::Files;
use octets::span::Span;
use setup::Setup;
use state::{Kept, Plan, Seat, Segment, State};

// The path of a file, n bytes, stands right before its contents.
#[tactic(auto, unfolding(crate::specs::Planned::path_of))]
fn path_of(file: Span, n: usize) -> Span
    ensures { result ≡ path_of file n }
{
    Span {
        place: file.place.saturating_sub(n),
        length: n,
    }
}

// The bytes that a segment takes: a dseg's file's size, or an mseg's own.
#[tactic(auto, unfolding(crate::specs::Planned::size_of), using(setup::specs::Values::get_or_any))]
pub(crate) fn size_of(setup: &Setup, files: &[Span; 16], row: usize) -> usize
    requires { row < 32 }
    ensures { result ≡ size_of setup.now files.now row }
{
    if row < 16 {
        return files[row].length;
    }
    let i = row - 16;
    if i < setup.msegcount {
        return setup.msegs[i].size as usize;
    }
    0
}

// The segment of a row, whose part of the arena is given; zeros where none is declared.
#[tactic(auto, unfolding(crate::specs::Planned::segment_of, crate::specs::Planned::dseg_of, crate::specs::Planned::mseg_of), using(setup::specs::Values::get_or_any))]
fn segment_of(setup: &Setup, files: &[Span; 16], row: usize, memory: Span) -> Segment
    requires row_bound { row < 32 }
    requires memory_value { memory ≡ span (start_of setup.now files.now row) (size_of setup.now files.now row) }
    ensures { result ≡ segment_of setup.now files.now row }
{
    if row < 16 {
        if row < setup.dsegcount {
            let file = files[row];
            let path = path_of(file, setup.dsegs[row].path.length);
            return Segment { memory, file, path };
        }
    } else if row - 16 < setup.msegcount {
        return Segment {
            memory,
            file: Span::NONE,
            path: Span::NONE,
        };
    }
    Segment::NONE
}

// Stays by number: a row is a dseg's or an mseg's by its number. And beside `seats_of`: two rows of two types.
// All segments, one behind the other, where no place among them wraps.
#[tactic(auto, unfolding(crate::specs::Planned::start_of, crate::specs::Each::firsts, crate::specs::Each::total), using(crate::proofs::Made::in_order))]
fn segments_of(setup: &Setup, files: &[Span; 16]) -> [Segment; 32]
    requires { start_of setup.now files.now 32 < 2 ^ 64 }
    ensures { result ≡ firsts (segment_of setup.now files.now) 32 }
{
    let mut segments = [Segment::NONE; 32];
    let mut at = 0;
    for row in 0..32 {
        let memory = Span {
            place: at,
            length: size_of(setup, files, row),
        };
        segments[row] = segment_of(setup, files, row, memory);
        at += memory.length;
    }
    segments
}

// The seat of partition p, whose table begins at place `at` of the table area; zeros where the partition is passive.
#[tactic(auto, unfolding(crate::specs::Planned::seat_of))]
fn seat_of(setup: &Setup, files: &[Span; 8], p: usize, at: usize) -> Seat
    requires p_bound { p < 8 }
    requires at_value { at ≡ table_start files.now p }
    ensures { result ≡ seat_of setup.now files.now p }
{
    if !setup.is_active(p) {
        return Seat::NONE;
    }
    let file = files[p];
    let table = Span {
        place: at,
        length: file.length,
    };
    Seat {
        active: true,
        table,
        file,
    }
}

// All seats, their tables one behind the other, where no place among them wraps.
#[tactic(auto, unfolding(crate::specs::Planned::table_start, crate::specs::Each::firsts, crate::specs::Each::total), using(crate::proofs::Made::in_order))]
fn seats_of(setup: &Setup, files: &[Span; 8]) -> [Seat; 8]
    requires { table_start files.now 8 < 2 ^ 64 }
    ensures { result ≡ firsts (seat_of setup.now files.now) 8 }
{
    let mut seats = [Seat::NONE; 8];
    let mut at = 0;
    for (p, file) in files.iter().enumerate() {
        seats[p] = seat_of(setup, files, p, at);
        at += file.length;
    }
    seats
}

// The plan, of areas that have room for it.
#[tactic(auto, unfolding(crate::specs::Planned::planned))]
pub(crate) fn plan_of(soft: bool, setup: &Setup, files: &Files, kept: Kept) -> Plan
    requires files_bound { start_of setup.now files.now.dsegs 32 ≤ kept.arena }
    requires passwords_bound { table_start files.now.passwords 8 ≤ kept.tables }
    ensures { result ≡ planned soft setup.now files.now.dsegs files.now.passwords kept }
{
    Plan {
        count: setup.partitions,
        soft,
        dsegs: setup.dsegcount,
        msegs: setup.msegcount,
        seats: seats_of(setup, &files.passwords),
        segments: segments_of(setup, &files.dsegs),
        kept,
    }
}

// The lowest active partition.
fn lowest(setup: &Setup) -> usize
    ensures { result ≡ lowest 8 setup.now 0 }
{
    (0..8).find(|&p| setup.is_active(p)).unwrap_or(0)
}

// The state at start.
#[tactic(auto, unfolding(crate::specs::Planned::first_state, state::specs::Parts::with_focus, state::specs::Empty::no_state))]
pub(crate) fn first_state(setup: &Setup) -> State
    ensures { result ≡ first_state setup.now }
{
    State::new().with_focus(lowest(setup))
}
