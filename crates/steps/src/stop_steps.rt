// A step of each call that stops the terminal.
ghost use Rattle.std.specs.Prelude.{◌≡◌};
ghost use Rattle.steps.specs.World.{World, with_terminal, with_screens, answers, step};
ghost use Rattle.steps.specs.World.Move.{Shutdown, Powerdown};

use terminal::{Answer, Terminal};

pub(crate) fn shutdown(t: Terminal, partition: u32, message: &[u8], screens: &mut [u8]) -> Answer
    ensures { (w : World) → answers (with_screens screens.new (with_terminal t w)) result ≡ step (with_screens screens.old (with_terminal t w)) (Shutdown partition message.now) }
{
    t.shutdown(partition, message, screens)
}

pub(crate) fn powerdown(t: Terminal, partition: u32, screens: &mut [u8]) -> Answer
    ensures { (w : World) → answers (with_screens screens.new (with_terminal t w)) result ≡ step (with_screens screens.old (with_terminal t w)) (Powerdown partition) }
{
    t.powerdown(partition, screens)
}
