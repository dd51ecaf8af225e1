// A step of each call on the caller's login record and password table.
// Stays: the parameters one by one, as the calls have them.
ghost use Rattle.std.specs.Prelude.{◌≡◌};
ghost use Rattle.terminal.specs.Terminal.{outcome};
ghost use Rattle.steps.specs.World.{World, with_terminal, with_store, with_tables, fills, answers, step};
ghost use Rattle.steps.specs.World.Move.{Login, Who, Logout, SetPassword};

use terminal::{Answer, Terminal};

pub(crate) fn login(
    t: Terminal,
    partition: u32,
    name: &[u8],
    password: &[u8],
    tables: &[u8],
) -> Answer
    ensures { (w : World) → answers (with_tables tables.now (with_terminal t w)) result ≡ step (with_tables tables.now (with_terminal t w)) (Login partition name.now password.now) }
{
    t.login(partition, name, password, tables)
}

pub(crate) fn who(t: Terminal, partition: u32, tables: &[u8], buffer: &mut [u8]) -> Answer
    ensures { (w : World) → fills (with_tables tables.now (with_terminal t w)) (outcome result buffer.new) ≡ step (with_tables tables.now (with_terminal t w)) (Who partition buffer.old) }
{
    t.who(partition, tables, buffer)
}

pub(crate) fn logout(t: Terminal, partition: u32) -> Answer
    ensures { (w : World) → answers (with_terminal t w) result ≡ step (with_terminal t w) (Logout partition) }
{
    t.logout(partition)
}

pub(crate) fn set_password(
    t: Terminal,
    partition: u32,
    password: &[u8],
    taken: u32,
    store: &mut [u8],
    tables: &mut [u8],
) -> Answer
    ensures { (w : World) → answers (with_tables tables.new (with_store store.new (with_terminal t w))) result ≡ step (with_tables tables.old (with_store store.old (with_terminal t w))) (SetPassword partition password.now taken) }
{
    t.set_password(partition, password, taken, store, tables)
}
