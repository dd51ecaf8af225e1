//! Next-read and next-write.
// Stays a number, n: each call promises an answer for every one (docs/DECISIONS.md, "Forms that stay").
// Stays: the parameters one by one, as the public calls have them (docs/DECISIONS.md, "Forms that stay").
// And two functions, which share what refuses them (`transfer`) and no work.
ghost use Rattle.std.specs.Prelude.{◌≡◌};
ghost use Rattle.console.specs.Console.{outcome, read_next, write_next};

use super::transfer::{Access, Transfer};
use super::{Reply, draw};
use octets::parts;
use state::Partition;

/// Takes the oldest keys of the partition's queue into the buffer, `request` of them or as many as there are. `n` is
/// the number of the common checks, 0 where nothing is refused.
#[tactic(auto, unfolding(crate::specs::Console::read_next, checks::specs::Settle::settle, crate::specs::Console::refusal, crate::specs::Console::keys_taken))]
pub fn read_next(
    n: u32,
    part: Partition,
    partition: u32,
    major: u32,
    minor: u32,
    request: u32,
    buffer: &mut [u8],
) -> Reply
    ensures { outcome result buffer.new ≡ read_next n part partition major minor request buffer.old }
{
    let transfer = Transfer {
        access: Access::ReadNext,
        partition,
        major,
        minor,
        offset: 0,
        request,
    };
    let number = transfer.number(n, part, buffer.len());
    if number != 0 {
        return Reply::refused(number, part);
    }
    let taken = part.keyboard.take(request as usize, buffer);
    Reply {
        number: 0,
        count: taken.count,
        part: part.with_keyboard(taken.keyboard),
    }
}

/// Puts the first `request` bytes on the partition's screen, from the cursor on. `n` is the number of the common
/// checks.
#[tactic(auto, unfolding(crate::specs::Console::write_next, checks::specs::Settle::settle, crate::specs::Console::refusal, crate::specs::Console::bytes_put, octets::specs::Lists::part))]
pub fn write_next(
    n: u32,
    part: Partition,
    partition: u32,
    major: u32,
    minor: u32,
    request: u32,
    bytes: &[u8],
    screens: &mut [u8],
) -> Reply
    ensures { outcome result screens.new ≡ write_next n part partition major minor request bytes.now screens.old }
{
    let transfer = Transfer {
        access: Access::WriteNext,
        partition,
        major,
        minor,
        offset: 0,
        request,
    };
    let number = transfer.number(n, part, bytes.len());
    if number != 0 {
        return Reply::refused(number, part);
    }
    let count = request as usize;
    let part = draw(part, partition, parts::piece(bytes, 0, count), screens);
    Reply {
        number: 0,
        count,
        part,
    }
}
