// Start.
ghost use Rattle.std.specs.Prelude.{◌≡◌};
ghost use Rattle.terminal.specs.Start.{start, start_of};

use super::{Started, Terminal};
use begin::Begun;

impl Terminal {
    /// Starts the terminal, or starts it anew. A refused start changes nothing and hands back the terminal given.
    // Stays: nine parameters, since a public function keeps its list (docs/DECISIONS.md, "Forms that stay").
    pub fn start(
        self,
        count: u32,
        active: [bool; 8],
        soft: bool,
        text: &[u8],
        store: &[u8],
        arena: &mut [u8],
        tables: &mut [u8],
        screens: &mut [u8],
        permissions: &mut [[u8; 8]; 32],
    ) -> Started
        ensures { start_of result arena.new tables.new screens.new permissions.new ≡ start self count active soft text.now store.now arena.old tables.old screens.old permissions.old }
    {
        match begin::start(
            count,
            active,
            soft,
            text,
            store,
            arena,
            tables,
            screens,
            permissions,
        ) {
            Ok(Begun { plan, state }) => Started {
                number: 0,
                line: 0,
                terminal: Terminal { plan, state },
            },
            Err(refused) => Started {
                number: refused.refusal.number(),
                line: refused.line,
                terminal: self,
            },
        }
    }
}
