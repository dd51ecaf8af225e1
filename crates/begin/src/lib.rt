//! Start of a terminal: the refusals in order, the plan, and what the lent areas are filled with.
#![tactic(auto)]

use files::Files;
pub use setup::Refused;
use setup::Setup;
use state::{Kept, Plan, State};

mod files;
mod filling;
mod judging;
mod planning;

ghost use Rattle.std.specs.Prelude.{◌≡◌};
ghost use Rattle.begin.specs.Start.{begun_of, beginning, start};
ghost use Rattle.begin.specs.StartLaws.{set_up};

/// What an accepted start fixes, and the state that it begins with.
#[derive(Clone, Copy, Debug, PartialEq, Eq)]
pub struct Begun {
    pub plan: Plan,
    pub state: State,
}

// What a host lends for writing.
#[derive(Drop)]
struct Areas<'a> {
    arena: &'a mut [u8],
    tables: &'a mut [u8],
    screens: &'a mut [u8],
    permissions: &'a mut [[u8; 8]; 32],
}

// Starts a terminal as a set-up says, where no statement of its text was refused. Everything is judged before anything
// is written.
fn set_up(
    setup: &Setup,
    soft: bool,
    text: &[u8],
    store: &[u8],
    areas: &mut Areas,
) -> Result<Begun, Refused>
    ensures outcome { beginning (begun_of result) areas.new.arena.now areas.new.tables.now areas.new.screens.now areas.new.permissions.now ≡ set_up setup.now soft text.now store.now areas.old.arena.now areas.old.tables.now areas.old.screens.now areas.old.permissions.now }
    ensures same_arena { areas.new.arena.ghost_name ≡ areas.old.arena.ghost_name }
    ensures same_tables { areas.new.tables.ghost_name ≡ areas.old.tables.ghost_name }
    ensures same_screens { areas.new.screens.ghost_name ≡ areas.old.screens.ghost_name }
    ensures same_permissions { areas.new.permissions.ghost_name ≡ areas.old.permissions.ghost_name }
{
    let files = Files::find(setup, text, store);
    let kept = Kept {
        store: store.len(),
        arena: areas.arena.len(),
        tables: areas.tables.len(),
        screens: areas.screens.len(),
    };
    judging::late(setup, &files, store, &kept)?;
    let plan = planning::plan_of(soft, setup, &files, kept);
    filling::fill_arena(&plan, store, areas.arena);
    filling::fill_tables(&plan, store, areas.tables);
    filling::clear_screens(&plan, areas.screens);
    *areas.permissions = setup::permission_table(*setup);
    Ok(Begun {
        plan,
        state: planning::first_state(setup),
    })
}

/// Starts a terminal of `count` partitions, of which those with a flag are active, as the text says. A refused start
/// leaves what was lent as it was.
// Stays: nine parameters, since a public function keeps its list (docs/DECISIONS.md, "Forms that stay").
pub fn start(
    count: u32,
    active: [bool; 8],
    soft: bool,
    text: &[u8],
    store: &[u8],
    arena: &mut [u8],
    tables: &mut [u8],
    screens: &mut [u8],
    permissions: &mut [[u8; 8]; 32],
) -> Result<Begun, Refused>
    ensures { beginning (begun_of result) arena.new tables.new screens.new permissions.new ≡ start count active soft text.now store.now arena.old tables.old screens.old permissions.old }
{
    judging::early(count, active, text, store)?;
    let setup = setup::read(true, store, text, count, active)?;
    let mut areas = Areas {
        arena,
        tables,
        screens,
        permissions,
    };
    set_up(&setup, soft, text, store, &mut areas)
}
