//! The terminal: start, the fourteen calls and the three events, as methods of one value.
//!
//! Every call takes the terminal and hands back the next one with its answer. A call is lent only the areas it touches.
//! Nothing has to be checked before a call: what it cannot do it refuses by a number, and then it changes nothing.
// Stays: each call tests what it is lent, does its work behind that number, and answers. A function that is handed the
// work as a closure would have to be lent the same areas, and each call would say as much as it says now.
#![tactic(auto)]

use state::{Partition, Plan, Seat, State};

mod account_calls;
mod device_calls;
mod events;
mod memory_calls;
mod start;
mod stop_calls;

ghost use Rattle.std.specs.Prelude.{◌≡◌};
ghost use Rattle.state.specs.Parts.{seat_at};
ghost use Rattle.terminal.specs.Terminal.{never, answer, with_partition, partition_of, guard_of};

/// The terminal's plan, which start fixes, and its state, which calls and events move.
// Stays: the terminal by value, and the calls as methods `(mut self, ..)` (docs/DECISIONS.md, "Forms that stay").
#[derive(Clone, Copy, Debug, PartialEq, Eq)]
pub struct Terminal {
    pub plan: Plan,
    pub state: State,
}

/// What a call answers: its number (0 where it is done), a count (keys, cells or bytes moved, or login's work; else 0)
/// and the next terminal.
// Stays: a public answer with its number, since number and count stand together (docs/DECISIONS.md, "Forms that stay").
#[derive(Clone, Copy, Debug, PartialEq, Eq)]
pub struct Answer {
    pub number: u32,
    pub count: usize,
    pub terminal: Terminal,
}

/// What start answers: its number (0 where the terminal is started), the line of the set-up text that it is about (0
/// for none) and the next terminal.
// Stays: a public answer with its number and line. The terminal comes back refused or not, so no `Result` would hold it
// (docs/DECISIONS.md, "Forms that stay").
#[derive(Clone, Copy, Debug, PartialEq, Eq)]
pub struct Started {
    pub number: u32,
    pub line: usize,
    pub terminal: Terminal,
}

impl Terminal {
    /// A terminal that was never started: every call is answered 216.
    #[tactic(auto, unfolding(crate::specs::Terminal::never))]
    pub fn new() -> Self
        ensures { result ≡ never }
    {
        Terminal {
            plan: Plan::new(),
            state: State::new(),
        }
    }

    // The number of the common checks of every call: 216, 212, 213 or 0. `wrong`: what is lent is not as at start.
    #[tactic(auto, unfolding(crate::specs::Terminal::guard_of))]
    fn guard(&self, wrong: bool, partition: u32) -> u32
        ensures { result ≡ guard_of self.now wrong partition }
    {
        checks::number_behind(0, guard::guard(&self.plan, &self.state, wrong, partition))
    }

    // The calling partition.
    #[tactic(auto, unfolding(crate::specs::Terminal::partition_of))]
    fn partition(&self, partition: u32) -> Partition
        ensures { result ≡ partition_of self.now partition }
    {
        self.state.part(partition as usize)
    }

    // What start fixed of the calling partition.
    fn seat(&self, partition: u32) -> Seat
        ensures { result ≡ seat_at self.now.plan partition }
    {
        self.plan.seat(partition as usize)
    }

    // The calling partition becomes this one.
    #[tactic(auto, unfolding(crate::specs::Terminal::with_partition, crate::specs::Terminal::with_state))]
    fn with_partition(mut self, partition: u32, part: Partition) -> Self
        ensures { result ≡ with_partition partition part self }
    {
        self.state = self.state.with_part(partition as usize, part);
        self
    }

    fn answer(self, number: u32, count: usize) -> Answer
        ensures { result ≡ answer number count self }
    {
        Answer {
            number,
            count,
            terminal: self,
        }
    }
}
