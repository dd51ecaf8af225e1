// The terminal that is measured: eight partitions, all active, without soft power.
//
// Stays: the areas one by one, as C lends them to each exported function; a struct would be built there for one call,
// which is no shorter (docs/DECISIONS.md, "Forms that stay").
ghost use Rattle.std.specs.Prelude.{◌≡◌};
ghost use Rattle.bench.specs.Scene.{scene, opened_from, opened, logged_in};

use terminal::{Answer, Terminal};

// Starts a terminal anew, and hands it back with start's number.
pub(crate) fn begun_from(
    given: Terminal,
    text: &[u8],
    store: &[u8],
    arena: &mut [u8],
    tables: &mut [u8],
    screens: &mut [u8],
    permissions: &mut [[u8; 8]; 32],
) -> Answer
    ensures { scene result arena.new tables.new screens.new permissions.new ≡ opened_from given text.now store.now arena.old tables.old screens.old permissions.old }
{
    let started = given.start(
        8,
        [true; 8],
        false,
        text,
        store,
        arena,
        tables,
        screens,
        permissions,
    );
    Answer {
        number: started.number,
        count: 0,
        terminal: started.terminal,
    }
}

// The first start.
pub(crate) fn begun(
    text: &[u8],
    store: &[u8],
    arena: &mut [u8],
    tables: &mut [u8],
    screens: &mut [u8],
    permissions: &mut [[u8; 8]; 32],
) -> Answer
    ensures { scene result arena.new tables.new screens.new permissions.new ≡ opened text.now store.now arena.old tables.old screens.old permissions.old }
{
    begun_from(
        Terminal::new(),
        text,
        store,
        arena,
        tables,
        screens,
        permissions,
    )
}

// The first start, and a login behind it: the answer is the login's.
pub(crate) fn logged_in(
    text: &[u8],
    store: &[u8],
    arena: &mut [u8],
    tables: &mut [u8],
    screens: &mut [u8],
    permissions: &mut [[u8; 8]; 32],
    partition: u32,
    name: &[u8],
    password: &[u8],
) -> Answer
    ensures { scene result arena.new tables.new screens.new permissions.new ≡ logged_in partition name.now password.now (opened text.now store.now arena.old tables.old screens.old permissions.old) }
{
    let first = begun(text, store, arena, tables, screens, permissions);
    first.terminal.login(partition, name, password, tables)
}
