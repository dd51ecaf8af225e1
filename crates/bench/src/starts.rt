// Start, and the key event.
ghost use Rattle.std.specs.Prelude.{[], ◌≡◌};
ghost use Rattle.terminal.specs.Events.{key};
ghost use Rattle.terminal.specs.DeviceCalls.{read_next};
ghost use Rattle.bench.specs.Scene.{seen, opened, none};
ghost use Rattle.bench.specs.Turns.{scene_after, events_after};
ghost use Rattle.bench.specs.Steps.{start_turn};

use super::scene;

/// Each turn starts the terminal anew.
#[unsafe(no_mangle)]
pub extern "C" fn virpulens_bench_start(
    turns: u32,
    text: &[u8],
    store: &[u8],
    arena: &mut [u8],
    tables: &mut [u8],
    screens: &mut [u8],
) -> u32
    ensures { seen result arena.new tables.new screens.new [] ≡ scene_after turns (start_turn text.now store.now) (opened text.now store.now arena.old tables.old screens.old none) }
{
    let mut permissions = [[0u8; 8]; 32];
    let mut last = scene::begun(text, store, arena, tables, screens, &mut permissions);
    for _ in 0..turns {
        last = scene::begun_from(
            last.terminal,
            text,
            store,
            arena,
            tables,
            screens,
            &mut permissions,
        );
    }
    last.number
}

/// Each turn types a key. An event answers nothing, so one read of the keys behind them all shows what they did, and
/// the number is that one's.
#[unsafe(no_mangle)]
pub extern "C" fn virpulens_bench_key(
    turns: u32,
    text: &[u8],
    store: &[u8],
    arena: &mut [u8],
    tables: &mut [u8],
    screens: &mut [u8],
    buffer: &mut [u8],
    partition: u32,
    byte: u8,
    request: u32,
) -> u32
    ensures { seen result arena.new tables.new screens.new buffer.new ≡ events_after turns (key byte) (λ t. read_next t partition 1 partition request buffer.old) (opened text.now store.now arena.old tables.old screens.old none) }
{
    let mut permissions = [[0u8; 8]; 32];
    let mut last = scene::begun(text, store, arena, tables, screens, &mut permissions).terminal;
    for _ in 0..turns {
        last = last.key(byte);
    }
    last.read_next(partition, 1, partition, request, buffer)
        .number
}
