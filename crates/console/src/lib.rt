//! The calls on a partition's two devices, and what shutdown shows.
//!
//! A call takes the number of the common checks, 0 where nothing is refused, and tries its own behind them. It is lent
//! the whole screen area and touches only its own partition's part of it. No function asks anything of its arguments.
#![tactic(auto)]

ghost use Rattle.std.specs.Prelude.{◌≡◌, ◌+◌, ◌*◌, min};
ghost use Rattle.console.specs.Console.{drawing, drawn};

use devices::screen::{self, CELLS};
use octets::parts;
use state::Partition;

pub mod halt;
pub mod next;
pub mod random;
mod transfer;

/// What a call answers: its number (0 where it is done), how many keys or cells it moved, and the partition afterwards.
// Stays: a public answer with its number. n may be any number, and a `Result` would hold fewer (docs/DECISIONS.md,
// "Forms that stay").
#[derive(Clone, Copy, Debug, PartialEq, Eq)]
pub struct Reply {
    pub number: u32,
    pub count: usize,
    pub part: Partition,
}

impl Reply {
    ghost use Rattle.console.specs.Console.{reply};

    // Nothing moved and nothing changed.
    fn refused(number: u32, part: Partition) -> Reply
        ensures { result ≡ reply number 0 part }
    {
        Reply {
            number,
            count: 0,
            part,
        }
    }
}

// Where the partition's screen begins and ends in an area of so many bytes, which may end first.
fn screen_ends(partition: u32, area: usize) -> (usize, usize)
    ensures start { result.0 ≡ min (2000 * partition) area }
    ensures end { result.1 ≡ min (result.0 + 2000) area }
{
    let start = (CELLS * (partition as usize)).min(area);
    (start, parts::sum(start, CELLS, area))
}

// Puts bytes on the partition's screen.
fn draw(part: Partition, partition: u32, bytes: &[u8], screens: &mut [u8]) -> Partition
    ensures { drawing result screens.new ≡ drawn bytes.now partition part screens.old }
{
    let (start, end) = screen_ends(partition, screens.len());
    let cursor = screen::put_all(&mut screens[start..end], part.cursor, bytes);
    part.with_cursor(cursor)
}
