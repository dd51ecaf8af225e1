// A step of each call on segments, and of configuration.
// Stays: the parameters one by one, as the calls have them.
ghost use Rattle.std.specs.Prelude.{◌≡◌};
ghost use Rattle.terminal.specs.Terminal.{outcome};
ghost use Rattle.steps.specs.World.{World, with_terminal, with_permissions, with_arena, with_store, fills, answers, step};
ghost use Rattle.steps.specs.World.Move.{Load, Store, Flush, Configuration};

use terminal::{Answer, Terminal};

pub(crate) fn load(
    t: Terminal,
    permissions: [[u8; 8]; 32],
    partition: u32,
    selector: u32,
    offset: u32,
    arena: &[u8],
    buffer: &mut [u8],
) -> Answer
    ensures { (w : World) → fills (with_arena arena.now (with_permissions permissions (with_terminal t w))) (outcome result buffer.new) ≡ step (with_arena arena.now (with_permissions permissions (with_terminal t w))) (Load partition selector offset buffer.old) }
{
    t.load(permissions, partition, selector, offset, arena, buffer)
}

pub(crate) fn store(
    t: Terminal,
    permissions: [[u8; 8]; 32],
    partition: u32,
    selector: u32,
    offset: u32,
    bytes: &[u8],
    arena: &mut [u8],
) -> Answer
    ensures { (w : World) → answers (with_arena arena.new (with_permissions permissions (with_terminal t w))) result ≡ step (with_arena arena.old (with_permissions permissions (with_terminal t w))) (Store partition selector offset bytes.now) }
{
    t.store(permissions, partition, selector, offset, bytes, arena)
}

pub(crate) fn flush(
    t: Terminal,
    permissions: [[u8; 8]; 32],
    partition: u32,
    selector: u32,
    taken: u32,
    arena: &[u8],
    store: &mut [u8],
) -> Answer
    ensures { (w : World) → answers (with_store store.new (with_arena arena.now (with_permissions permissions (with_terminal t w)))) result ≡ step (with_store store.old (with_arena arena.now (with_permissions permissions (with_terminal t w)))) (Flush partition selector taken) }
{
    t.flush(permissions, partition, selector, taken, arena, store)
}

pub(crate) fn configuration(
    t: Terminal,
    permissions: [[u8; 8]; 32],
    partition: u32,
    store: &[u8],
    buffer: &mut [u8],
) -> Answer
    ensures { (w : World) → fills (with_store store.now (with_permissions permissions (with_terminal t w))) (outcome result buffer.new) ≡ step (with_store store.now (with_permissions permissions (with_terminal t w))) (Configuration partition buffer.old) }
{
    t.configuration(permissions, partition, store, buffer)
}
