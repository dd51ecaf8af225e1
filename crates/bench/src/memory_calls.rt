// The calls on segments, and the configuration database.
ghost use Rattle.std.specs.Prelude.{[], ◌≡◌};
ghost use Rattle.bench.specs.Scene.{seen, opened, none};
ghost use Rattle.bench.specs.Turns.{arena_after, lent_after};
ghost use Rattle.bench.specs.Steps.{load_turn, store_turn, flush_turn, configuration_turn};

use super::scene;

/// A part of a segment is read in each turn.
#[unsafe(no_mangle)]
pub extern "C" fn virpulens_bench_load(
    turns: u32,
    text: &[u8],
    store: &[u8],
    arena: &mut [u8],
    tables: &mut [u8],
    screens: &mut [u8],
    buffer: &mut [u8],
    partition: u32,
    selector: u32,
    offset: u32,
) -> u32
    ensures { seen result arena.new tables.new screens.new buffer.new ≡ lent_after turns (load_turn partition selector offset) buffer.old (opened text.now store.now arena.old tables.old screens.old none) }
{
    let mut permissions = [[0u8; 8]; 32];
    let mut last = scene::begun(text, store, arena, tables, screens, &mut permissions);
    for _ in 0..turns {
        last = last
            .terminal
            .load(permissions, partition, selector, offset, arena, buffer);
    }
    last.number
}

/// A part of a segment is written in each turn.
#[unsafe(no_mangle)]
pub extern "C" fn virpulens_bench_store(
    turns: u32,
    text: &[u8],
    store: &[u8],
    arena: &mut [u8],
    tables: &mut [u8],
    screens: &mut [u8],
    partition: u32,
    selector: u32,
    offset: u32,
    bytes: &[u8],
) -> u32
    ensures { seen result arena.new tables.new screens.new [] ≡ arena_after turns (store_turn partition selector offset bytes.now) (opened text.now store.now arena.old tables.old screens.old none) }
{
    let mut permissions = [[0u8; 8]; 32];
    let mut last = scene::begun(text, store, arena, tables, screens, &mut permissions);
    for _ in 0..turns {
        last = last
            .terminal
            .store(permissions, partition, selector, offset, bytes, arena);
    }
    last.number
}

/// A segment goes back into its file in each turn.
#[unsafe(no_mangle)]
pub extern "C" fn virpulens_bench_flush(
    turns: u32,
    text: &[u8],
    store: &mut [u8],
    arena: &mut [u8],
    tables: &mut [u8],
    screens: &mut [u8],
    partition: u32,
    selector: u32,
    taken: u32,
) -> u32
    ensures { seen result arena.new tables.new screens.new store.new ≡ lent_after turns (flush_turn partition selector taken) store.old (opened text.now store.old arena.old tables.old screens.old none) }
{
    let mut permissions = [[0u8; 8]; 32];
    let mut last = scene::begun(text, store, arena, tables, screens, &mut permissions);
    for _ in 0..turns {
        last = last
            .terminal
            .flush(permissions, partition, selector, taken, arena, store);
    }
    last.number
}

/// The configuration database is read in each turn.
#[unsafe(no_mangle)]
pub extern "C" fn virpulens_bench_configuration(
    turns: u32,
    text: &[u8],
    store: &[u8],
    arena: &mut [u8],
    tables: &mut [u8],
    screens: &mut [u8],
    buffer: &mut [u8],
    partition: u32,
) -> u32
    ensures { seen result arena.new tables.new screens.new buffer.new ≡ lent_after turns (configuration_turn partition store.now) buffer.old (opened text.now store.now arena.old tables.old screens.old none) }
{
    let mut permissions = [[0u8; 8]; 32];
    let mut last = scene::begun(text, store, arena, tables, screens, &mut permissions);
    for _ in 0..turns {
        last = last
            .terminal
            .configuration(permissions, partition, store, buffer);
    }
    last.number
}
