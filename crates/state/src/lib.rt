// What a terminal is: the plan that start fixes, and the state that calls and events move.
//
// Both are values. A partition, a seat and a segment are read and changed by number; where there is none of that number
// the empty one is read and nothing is changed.
#![tactic(auto)]

mod device;

ghost use Rattle.std.specs.Prelude.{◌≡◌};
ghost use Rattle.state.specs.Parts.{is_active, seat_at, segment_at, part_at, with_part, with_focus, with_stop};
ghost use Rattle.state.specs.Parts.{with_keyboard, with_cursor, with_login, with_fault, faulty};
ghost use Rattle.state.specs.Empty.{nobody, no_partition, no_state, no_plan};

pub use device::Device;
use devices::keyboard::Keyboard;
use octets::span::Span;

/// How many partitions there can be.
pub const PARTITIONS: usize = 8;

/// How many segments there can be, dsegs and msegs together.
pub const SEGMENTS: usize = 32;

/// How long each lent area was at start, in bytes.
#[derive(Clone, Copy, Debug, PartialEq, Eq)]
pub struct Kept {
    pub store: usize,
    pub arena: usize,
    pub tables: usize,
    pub screens: usize,
}

impl Kept {
    /// Of a terminal that was never started: no area has a byte.
    pub const NONE: Kept = Kept {
        store: 0,
        arena: 0,
        tables: 0,
        screens: 0,
    };
}

/// A segment: its part of the arena; for a dseg also its file's contents and path, as parts of the store.
#[derive(Clone, Copy, Debug, PartialEq, Eq)]
pub struct Segment {
    pub memory: Span,
    pub file: Span,
    pub path: Span,
}

impl Segment {
    /// What stands where there is no segment.
    pub const NONE: Segment = Segment {
        memory: Span::NONE,
        file: Span::NONE,
        path: Span::NONE,
    };
}

/// What start fixes of one partition: whether it is active, its password table's part of the table area and its
/// password file's part of the store.
// Stays: a flag with places beside it. The calls answer for every plan, also for one whose passive seat has places,
// which the state test looks at; an Option would have no such plan.
#[derive(Clone, Copy, Debug, PartialEq, Eq)]
pub struct Seat {
    pub active: bool,
    pub table: Span,
    pub file: Span,
}

impl Seat {
    /// What stands where there is no partition, and what start gives a passive one.
    pub const NONE: Seat = Seat {
        active: false,
        table: Span::NONE,
        file: Span::NONE,
    };
}

/// What start fixes: how many partitions there are, whether power can be switched off by a call, how many dsegs and
/// msegs there are, and the places of everything. Segment i is dseg i, segment 16 + i is mseg i, as the rows of the
/// permission table are.
// Stays: rows of 8 and 32 with counts beside them, since the layer has no heap.
#[derive(Clone, Copy, Debug, PartialEq, Eq)]
pub struct Plan {
    pub count: usize,
    pub soft: bool,
    pub dsegs: usize,
    pub msegs: usize,
    pub seats: [Seat; 8],
    pub segments: [Segment; 32],
    pub kept: Kept,
}

/// Nobody, or the user of a record of the password table, counted from 0.
// Stays: an enum of our own in a record, a form that the build names (docs/DECISIONS.md, "Forms that stay").
#[derive(Clone, Copy, Debug, PartialEq, Eq)]
pub enum Login {
    Nobody,
    User { place: usize },
}

/// Who is logged in.
#[derive(Clone, Copy, Debug, PartialEq, Eq)]
pub struct LoginRecord {
    pub user: Login,
}

/// What moves in one partition.
#[derive(Clone, Copy, Debug, PartialEq, Eq)]
pub struct Partition {
    pub keyboard: Keyboard,
    pub cursor: usize,
    pub keyfault: bool,
    pub screenfault: bool,
    pub login: LoginRecord,
}

/// What calls and events move.
// Stays: a row of eight partitions, of which the plan says how many there are, since memory is fixed
// (docs/DECISIONS.md, "Forms that stay").
#[derive(Clone, Copy, Debug, PartialEq, Eq)]
pub struct State {
    pub partitions: [Partition; 8],
    pub focus: usize,
    pub stopped: bool,
    pub off: bool,
}

impl LoginRecord {
    /// Nobody.
    pub fn new() -> Self
        ensures { result ≡ nobody }
    {
        LoginRecord {
            user: Login::Nobody,
        }
    }
}

impl Partition {
    /// The partition at its start.
    pub fn new() -> Self
        ensures { result ≡ no_partition }
    {
        Partition {
            keyboard: Keyboard::new(),
            cursor: 0,
            keyfault: false,
            screenfault: false,
            login: LoginRecord::new(),
        }
    }

    /// The partition with this queue.
    #[tactic(auto, unfolding(crate::specs::Parts::with_keyboard))]
    pub fn with_keyboard(mut self, keyboard: Keyboard) -> Self
        ensures { result ≡ with_keyboard keyboard self }
    {
        self.keyboard = keyboard;
        self
    }

    /// The partition with its cursor at this cell.
    #[tactic(auto, unfolding(crate::specs::Parts::with_cursor))]
    pub fn with_cursor(mut self, cursor: usize) -> Self
        ensures { result ≡ with_cursor cursor self }
    {
        self.cursor = cursor;
        self
    }

    /// The partition with this login.
    #[tactic(auto, unfolding(crate::specs::Parts::with_login))]
    pub fn with_login(mut self, login: LoginRecord) -> Self
        ensures { result ≡ with_login login self }
    {
        self.login = login;
        self
    }

    /// Whether a device, 1 the keyboard and 2 the screen, has its fault flag set; no other has one.
    // Stays a number, here and in `with_fault`: a caller passes any, and only two of them are devices'.
    #[tactic(auto, unfolding(crate::specs::Parts::faulty, crate::specs::Devices::device_of))]
    pub fn faulty(self, device: u32) -> bool
        ensures { result ≡ faulty device self }
    {
        match Device::of(device) {
            Some(Device::Keyboard) => self.keyfault,
            Some(Device::Screen) => self.screenfault,
            None => false,
        }
    }

    /// Sets or clears a device's fault flag.
    #[tactic(auto, unfolding(crate::specs::Parts::with_fault, crate::specs::Devices::device_of))]
    pub fn with_fault(mut self, device: u32, flag: bool) -> Self
        ensures { result ≡ with_fault device flag self }
    {
        match Device::of(device) {
            Some(Device::Keyboard) => self.keyfault = flag,
            Some(Device::Screen) => self.screenfault = flag,
            None => {}
        }
        self
    }
}

impl Plan {
    /// The plan of a terminal that was never started.
    #[tactic(auto, unfolding(crate::specs::Empty::no_plan))]
    pub fn new() -> Self
        ensures { result ≡ no_plan }
    {
        Plan {
            count: 0,
            soft: false,
            dsegs: 0,
            msegs: 0,
            seats: [Seat::NONE; PARTITIONS],
            segments: [Segment::NONE; SEGMENTS],
            kept: Kept::NONE,
        }
    }

    /// Segment i, or the empty one.
    #[tactic(auto, unfolding(crate::specs::Parts::segment_at))]
    pub fn segment(&self, i: usize) -> Segment
        ensures { result ≡ segment_at self.now i }
    {
        self.segments.get(i).copied().unwrap_or(Segment::NONE)
    }

    /// The seat of partition p, or the empty one.
    #[tactic(auto, unfolding(crate::specs::Parts::seat_at))]
    pub fn seat(&self, p: usize) -> Seat
        ensures { result ≡ seat_at self.now p }
    {
        self.seats.get(p).copied().unwrap_or(Seat::NONE)
    }

    /// Whether partition p is an active one.
    #[tactic(auto, unfolding(crate::specs::Parts::is_active))]
    pub fn is_active(&self, p: usize) -> bool
        ensures { result ≡ is_active self.now p }
    {
        p < self.count && self.seat(p).active
    }
}

impl State {
    /// The state of a terminal that was never started.
    #[tactic(auto, unfolding(crate::specs::Empty::no_state))]
    pub fn new() -> Self
        ensures { result ≡ no_state }
    {
        State {
            partitions: [Partition::new(); PARTITIONS],
            focus: 0,
            stopped: false,
            off: false,
        }
    }

    /// Partition p, or the empty one.
    #[tactic(auto, unfolding(crate::specs::Parts::part_at))]
    pub fn part(&self, p: usize) -> Partition
        ensures { result ≡ part_at self.now p }
    {
        self.partitions
            .get(p)
            .copied()
            .unwrap_or_else(Partition::new)
    }

    /// The state with this as partition p.
    #[tactic(auto, unfolding(crate::specs::Parts::with_part))]
    pub fn with_part(mut self, p: usize, part: Partition) -> Self
        ensures { result ≡ with_part p part self }
    {
        if p < PARTITIONS {
            self.partitions[p] = part;
        }
        self
    }

    /// The state with the focus on partition p.
    #[tactic(auto, unfolding(crate::specs::Parts::with_focus))]
    pub fn with_focus(mut self, p: usize) -> Self
        ensures { result ≡ with_focus p self }
    {
        self.focus = p;
        self
    }

    /// Stopped, and off where `off` says so.
    #[tactic(auto, unfolding(crate::specs::Parts::with_stop))]
    pub fn with_stop(mut self, off: bool) -> Self
        ensures { result ≡ with_stop off self }
    {
        self.stopped = true;
        self.off = off;
        self
    }
}
