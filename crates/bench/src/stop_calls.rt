// The calls that stop the terminal: each turn is made on the terminal as start left it, since a stopped one refuses.
ghost use Rattle.std.specs.Prelude.{[], ◌≡◌};
ghost use Rattle.bench.specs.Scene.{seen, opened, none};
ghost use Rattle.bench.specs.Turns.{screens_after};
ghost use Rattle.bench.specs.Steps.{shutdown_turn, powerdown_turn};

use super::scene;

/// A shutdown in each turn.
#[unsafe(no_mangle)]
pub extern "C" fn virpulens_bench_shutdown(
    turns: u32,
    text: &[u8],
    store: &[u8],
    arena: &mut [u8],
    tables: &mut [u8],
    screens: &mut [u8],
    partition: u32,
    message: &[u8],
) -> u32
    ensures { seen result arena.new tables.new screens.new [] ≡ screens_after turns (shutdown_turn partition message.now) (opened text.now store.now arena.old tables.old screens.old none) }
{
    let mut permissions = [[0u8; 8]; 32];
    let first = scene::begun(text, store, arena, tables, screens, &mut permissions);
    let mut last = first;
    for _ in 0..turns {
        last = first.terminal.shutdown(partition, message, screens);
    }
    last.number
}

/// A power-down in each turn.
#[unsafe(no_mangle)]
pub extern "C" fn virpulens_bench_powerdown(
    turns: u32,
    text: &[u8],
    store: &[u8],
    arena: &mut [u8],
    tables: &mut [u8],
    screens: &mut [u8],
    partition: u32,
) -> u32
    ensures { seen result arena.new tables.new screens.new [] ≡ screens_after turns (powerdown_turn partition) (opened text.now store.now arena.old tables.old screens.old none) }
{
    let mut permissions = [[0u8; 8]; 32];
    let first = scene::begun(text, store, arena, tables, screens, &mut permissions);
    let mut last = first;
    for _ in 0..turns {
        last = first.terminal.powerdown(partition, screens);
    }
    last.number
}
