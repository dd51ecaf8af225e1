// The calls on keyboard and screen.
ghost use Rattle.std.specs.Prelude.{[], ◌≡◌};
ghost use Rattle.bench.specs.Scene.{seen, opened, none};
ghost use Rattle.bench.specs.Turns.{screens_after, lent_after};
ghost use Rattle.bench.specs.Steps.{read_next_turn, read_random_turn, write_next_turn, write_random_turn};

use super::scene;

/// Each turn types a key, which the focused partition 0 gets, and reads keys: with no key typed there would be nothing
/// to read.
#[unsafe(no_mangle)]
pub extern "C" fn virpulens_bench_key_read_next(
    turns: u32,
    text: &[u8],
    store: &[u8],
    arena: &mut [u8],
    tables: &mut [u8],
    screens: &mut [u8],
    buffer: &mut [u8],
    partition: u32,
    byte: u8,
    request: u32,
) -> u32
    ensures { seen result arena.new tables.new screens.new buffer.new ≡ lent_after turns (read_next_turn partition byte request) buffer.old (opened text.now store.now arena.old tables.old screens.old none) }
{
    let mut permissions = [[0u8; 8]; 32];
    let mut last = scene::begun(text, store, arena, tables, screens, &mut permissions);
    for _ in 0..turns {
        let typed = last.terminal.key(byte);
        last = typed.read_next(partition, 1, partition, request, buffer);
    }
    last.number
}

/// A part of the screen is read in each turn.
#[unsafe(no_mangle)]
pub extern "C" fn virpulens_bench_read_random(
    turns: u32,
    text: &[u8],
    store: &[u8],
    arena: &mut [u8],
    tables: &mut [u8],
    screens: &mut [u8],
    buffer: &mut [u8],
    partition: u32,
    offset: u32,
    request: u32,
) -> u32
    ensures { seen result arena.new tables.new screens.new buffer.new ≡ lent_after turns (read_random_turn partition offset request) buffer.old (opened text.now store.now arena.old tables.old screens.old none) }
{
    let mut permissions = [[0u8; 8]; 32];
    let mut last = scene::begun(text, store, arena, tables, screens, &mut permissions);
    for _ in 0..turns {
        last = last
            .terminal
            .read_random(partition, 2, partition, offset, request, screens, buffer);
    }
    last.number
}

/// Cells are written from the cursor on in each turn.
#[unsafe(no_mangle)]
pub extern "C" fn virpulens_bench_write_next(
    turns: u32,
    text: &[u8],
    store: &[u8],
    arena: &mut [u8],
    tables: &mut [u8],
    screens: &mut [u8],
    partition: u32,
    request: u32,
    bytes: &[u8],
) -> u32
    ensures { seen result arena.new tables.new screens.new [] ≡ screens_after turns (write_next_turn partition request bytes.now) (opened text.now store.now arena.old tables.old screens.old none) }
{
    let mut permissions = [[0u8; 8]; 32];
    let mut last = scene::begun(text, store, arena, tables, screens, &mut permissions);
    for _ in 0..turns {
        last = last
            .terminal
            .write_next(partition, 2, partition, request, bytes, screens);
    }
    last.number
}

/// Cells are written from a place on in each turn.
#[unsafe(no_mangle)]
pub extern "C" fn virpulens_bench_write_random(
    turns: u32,
    text: &[u8],
    store: &[u8],
    arena: &mut [u8],
    tables: &mut [u8],
    screens: &mut [u8],
    partition: u32,
    offset: u32,
    request: u32,
    bytes: &[u8],
) -> u32
    ensures { seen result arena.new tables.new screens.new [] ≡ screens_after turns (write_random_turn partition offset request bytes.now) (opened text.now store.now arena.old tables.old screens.old none) }
{
    let mut permissions = [[0u8; 8]; 32];
    let mut last = scene::begun(text, store, arena, tables, screens, &mut permissions);
    for _ in 0..turns {
        last = last
            .terminal
            .write_random(partition, 2, partition, offset, request, bytes, screens);
    }
    last.number
}
