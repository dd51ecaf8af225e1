// A step of each event.
ghost use Rattle.std.specs.Prelude.{◌≡◌};
ghost use Rattle.steps.specs.World.{World, with_terminal, becomes, step};
ghost use Rattle.steps.specs.World.Move.{Key, Attention, Fault};

use terminal::Terminal;

pub(crate) fn key(t: Terminal, byte: u8) -> Terminal
    ensures { (w : World) → becomes (with_terminal t w) result ≡ step (with_terminal t w) (Key byte) }
{
    t.key(byte)
}

pub(crate) fn attention(t: Terminal) -> Terminal
    ensures { (w : World) → becomes (with_terminal t w) result ≡ step (with_terminal t w) Attention }
{
    t.attention()
}

pub(crate) fn fault(t: Terminal, partition: u32, device: u32, set: bool) -> Terminal
    ensures { (w : World) → becomes (with_terminal t w) result ≡ step (with_terminal t w) (Fault partition device set) }
{
    t.fault(partition, device, set)
}
