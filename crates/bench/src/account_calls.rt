// The calls on login records and password tables.
ghost use Rattle.std.specs.Prelude.{[], ◌≡◌};
ghost use Rattle.bench.specs.Scene.{seen, opened, none, logged_in};
ghost use Rattle.bench.specs.Turns.{answer_after, lent_after, written_after};
ghost use Rattle.bench.specs.Steps.{login_turn, logout_turn, who_turn, set_password_turn};

use super::scene;

/// Each turn logs out and logs in, since a second login is refused; the number is the login's.
#[unsafe(no_mangle)]
pub extern "C" fn virpulens_bench_logout_login(
    turns: u32,
    text: &[u8],
    store: &[u8],
    arena: &mut [u8],
    tables: &mut [u8],
    screens: &mut [u8],
    partition: u32,
    name: &[u8],
    password: &[u8],
) -> u32
    ensures { seen result arena.new tables.new screens.new [] ≡ answer_after turns (login_turn partition name.now password.now) (opened text.now store.now arena.old tables.old screens.old none) }
{
    let mut permissions = [[0u8; 8]; 32];
    let mut last = scene::begun(text, store, arena, tables, screens, &mut permissions);
    for _ in 0..turns {
        let out = last.terminal.logout(partition);
        last = out.terminal.login(partition, name, password, tables);
    }
    last.number
}

/// A logout in each turn; the number is the last one's.
#[unsafe(no_mangle)]
pub extern "C" fn virpulens_bench_logout(
    turns: u32,
    text: &[u8],
    store: &[u8],
    arena: &mut [u8],
    tables: &mut [u8],
    screens: &mut [u8],
    partition: u32,
) -> u32
    ensures { seen result arena.new tables.new screens.new [] ≡ answer_after turns (logout_turn partition) (opened text.now store.now arena.old tables.old screens.old none) }
{
    let mut permissions = [[0u8; 8]; 32];
    let mut last = scene::begun(text, store, arena, tables, screens, &mut permissions);
    for _ in 0..turns {
        last = last.terminal.logout(partition);
    }
    last.number
}

/// Behind a login, so that there is a name to write.
#[unsafe(no_mangle)]
pub extern "C" fn virpulens_bench_who(
    turns: u32,
    text: &[u8],
    store: &[u8],
    arena: &mut [u8],
    tables: &mut [u8],
    screens: &mut [u8],
    buffer: &mut [u8],
    partition: u32,
    name: &[u8],
    password: &[u8],
) -> u32
    ensures { seen result arena.new tables.new screens.new buffer.new ≡ lent_after turns (who_turn partition) buffer.old (logged_in partition name.now password.now (opened text.now store.now arena.old tables.old screens.old none)) }
{
    let mut permissions = [[0u8; 8]; 32];
    let mut last = scene::logged_in(
        text,
        store,
        arena,
        tables,
        screens,
        &mut permissions,
        partition,
        name,
        password,
    );
    for _ in 0..turns {
        last = last.terminal.who(partition, tables, buffer);
    }
    last.number
}

/// Behind a login.
#[unsafe(no_mangle)]
pub extern "C" fn virpulens_bench_set_password(
    turns: u32,
    text: &[u8],
    store: &mut [u8],
    arena: &mut [u8],
    tables: &mut [u8],
    screens: &mut [u8],
    partition: u32,
    name: &[u8],
    password: &[u8],
    taken: u32,
    changed: &[u8],
) -> u32
    ensures { seen result arena.new tables.new screens.new store.new ≡ written_after turns (set_password_turn partition changed.now taken) store.old (logged_in partition name.now password.now (opened text.now store.old arena.old tables.old screens.old none)) }
{
    let mut permissions = [[0u8; 8]; 32];
    let mut last = scene::logged_in(
        text,
        store,
        arena,
        tables,
        screens,
        &mut permissions,
        partition,
        name,
        password,
    );
    for _ in 0..turns {
        last = last
            .terminal
            .set_password(partition, changed, taken, store, tables);
    }
    last.number
}
