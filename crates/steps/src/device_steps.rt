// A step of each call on the caller's keyboard and screen.
// Stays: the parameters one by one, as the calls have them.
ghost use Rattle.std.specs.Prelude.{◌≡◌};
ghost use Rattle.terminal.specs.Terminal.{outcome};
ghost use Rattle.steps.specs.World.{World, with_terminal, with_screens, fills, answers, step};
ghost use Rattle.steps.specs.World.Move.{ReadNext, ReadRandom, WriteNext, WriteRandom};

use terminal::{Answer, Terminal};

pub(crate) fn read_next(
    t: Terminal,
    partition: u32,
    major: u32,
    minor: u32,
    request: u32,
    buffer: &mut [u8],
) -> Answer
    ensures { (w : World) → fills (with_terminal t w) (outcome result buffer.new) ≡ step (with_terminal t w) (ReadNext partition major minor request buffer.old) }
{
    t.read_next(partition, major, minor, request, buffer)
}

pub(crate) fn read_random(
    t: Terminal,
    partition: u32,
    major: u32,
    minor: u32,
    offset: u32,
    request: u32,
    screens: &[u8],
    buffer: &mut [u8],
) -> Answer
    ensures { (w : World) → fills (with_screens screens.now (with_terminal t w)) (outcome result buffer.new) ≡ step (with_screens screens.now (with_terminal t w)) (ReadRandom partition major minor offset request buffer.old) }
{
    t.read_random(partition, major, minor, offset, request, screens, buffer)
}

pub(crate) fn write_next(
    t: Terminal,
    partition: u32,
    major: u32,
    minor: u32,
    request: u32,
    bytes: &[u8],
    screens: &mut [u8],
) -> Answer
    ensures { (w : World) → answers (with_screens screens.new (with_terminal t w)) result ≡ step (with_screens screens.old (with_terminal t w)) (WriteNext partition major minor request bytes.now) }
{
    t.write_next(partition, major, minor, request, bytes, screens)
}

pub(crate) fn write_random(
    t: Terminal,
    partition: u32,
    major: u32,
    minor: u32,
    offset: u32,
    request: u32,
    bytes: &[u8],
    screens: &mut [u8],
) -> Answer
    ensures { (w : World) → answers (with_screens screens.new (with_terminal t w)) result ≡ step (with_screens screens.old (with_terminal t w)) (WriteRandom partition major minor offset request bytes.now) }
{
    t.write_random(partition, major, minor, offset, request, bytes, screens)
}
