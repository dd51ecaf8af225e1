//! Random read and write of a screen. Neither moves the cursor.
// Stays a number, n: each call promises an answer for every one (docs/DECISIONS.md, "Forms that stay").
// Stays: the parameters one by one, as the public calls have them (docs/DECISIONS.md, "Forms that stay").
ghost use Rattle.std.specs.Prelude.{◌≡◌};
ghost use Rattle.devices.specs.Screen.{transfer};
ghost use Rattle.console.specs.Console.{outcome, read_random, written, write_random};

use super::transfer::{Access, Transfer};
use super::{Reply, screen_ends};
use devices::screen::{self, CELLS};
use octets::parts;
use state::Partition;

/// Copies `request` cells of the partition's screen, from `offset` on, into the buffer, as many as there are. `n` is
/// the number of the common checks, 0 where nothing is refused.
#[tactic(auto, unfolding(crate::specs::Console::read_random, checks::specs::Settle::settle, crate::specs::Console::refusal, crate::specs::Console::cells_moved, crate::specs::Console::cells_of))]
pub fn read_random(
    n: u32,
    part: Partition,
    partition: u32,
    major: u32,
    minor: u32,
    offset: u32,
    request: u32,
    screens: &[u8],
    buffer: &mut [u8],
) -> Reply
    ensures { outcome result buffer.new ≡ read_random n part partition major minor offset request screens.now buffer.old }
{
    let transfer = Transfer {
        access: Access::ReadRandom,
        partition,
        major,
        minor,
        offset,
        request,
    };
    let number = transfer.number(n, part, buffer.len());
    if number != 0 {
        return Reply::refused(number, part);
    }
    let at = CELLS * (partition as usize);
    let cells = parts::piece(screens, at, CELLS);
    let count = screen::read_at(cells, offset as usize, request as usize, buffer);
    Reply {
        number: 0,
        count,
        part,
    }
}

// Lays bytes over the cells of the partition's screen, from `offset` on, and says how many.
fn lay(partition: u32, offset: usize, request: usize, bytes: &[u8], screens: &mut [u8]) -> usize
    ensures { transfer result screens.new ≡ written partition offset request bytes.now screens.old }
{
    let (start, end) = screen_ends(partition, screens.len());
    screen::write_at(&mut screens[start..end], offset, request, bytes)
}

/// Copies the first `request` bytes over the cells of the partition's screen, from `offset` on, as many as there are.
/// `n` is the number of the common checks.
#[tactic(auto, unfolding(crate::specs::Console::write_random, checks::specs::Settle::settle, crate::specs::Console::refusal, crate::specs::Console::cells_moved))]
pub fn write_random(
    n: u32,
    part: Partition,
    partition: u32,
    major: u32,
    minor: u32,
    offset: u32,
    request: u32,
    bytes: &[u8],
    screens: &mut [u8],
) -> Reply
    ensures { outcome result screens.new ≡ write_random n part partition major minor offset request bytes.now screens.old }
{
    let transfer = Transfer {
        access: Access::WriteRandom,
        partition,
        major,
        minor,
        offset,
        request,
    };
    let number = transfer.number(n, part, bytes.len());
    if number != 0 {
        return Reply::refused(number, part);
    }
    let count = lay(partition, offset as usize, request as usize, bytes, screens);
    Reply {
        number: 0,
        count,
        part,
    }
}
