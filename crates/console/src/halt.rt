//! What shutdown shows on the caller's screen.
ghost use Rattle.std.specs.Prelude.{◌≡◌};
ghost use Rattle.console.specs.Console.{drawing};
ghost use Rattle.console.specs.Halt.{shown_message};
ghost use Rattle.console.specs.Halt.{halt as Halt·halt};

use super::draw;
use octets::{parts, search};
use state::Partition;

// The places of a message that are looked at for its zero.
const LOOKED_AT: usize = 81;

// The message up to its zero; nothing where that does not stand at place 1 to 80.
fn shown(message: &[u8]) -> &[u8]
    ensures { result.now ≡ shown_message message.now }
{
    let end = search::first_zero(message, LOOKED_AT);
    let looked = LOOKED_AT.min(message.len());
    if (1 <= end) & (end < looked) {
        return parts::piece(message, 0, end);
    }
    parts::piece(message, 0, 0)
}

/// Puts the message and the notice on the partition's screen, unless that is faulty, and hands the partition back with
/// its cursor moved.
pub fn halt(part: Partition, partition: u32, message: &[u8], screens: &mut [u8]) -> Partition
    ensures { drawing result screens.new ≡ Halt·halt message.now partition part screens.old }
{
    let faulty = part.screenfault;
    if faulty {
        return part;
    }
    let told = draw(part, partition, shown(message), screens);
    draw(told, partition, b"\nSYSTEM HALTED", screens)
}
