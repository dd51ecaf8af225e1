// What the programs over a terminal share: the areas that they lend, with the store that they begin with, and the
// start.
#![tactic(auto)]

mod given;

ghost use Rattle.std.specs.Prelude.{◌≡◌, false};
ghost use Rattle.octets.specs.Lists.{part};
ghost use Rattle.octets.specs.Same.{same_bytes};
ghost use Rattle.scene.specs.Given.{fresh, active, text};
ghost use Rattle.terminal.specs.Start.{start, start_of};

use octets::{parts, search};
use terminal::{Started, Terminal};

/// The areas that a program lends to its terminal of three partitions.
#[derive(Drop)]
pub struct Areas {
    /// The store's image.
    pub image: [u8; 247],
    pub arena: [u8; 64],
    /// The password tables.
    pub tables: [u8; 130],
    pub screens: [u8; 6001],
    pub permissions: [[u8; 8]; 32],
}

impl Areas {
    /// The areas before a start: the store as it is delivered, and dashes, so that a byte that nobody wrote shows as
    /// one.
    #[tactic(auto, unfolding(crate::specs::Given::fresh, crate::specs::Given::image, octets::specs::Numbers::spelled))]
    pub fn new() -> Areas
        ensures { result ≡ fresh }
    {
        Areas {
            image: given::IMAGE,
            arena: [b'-'; 64],
            tables: [b'-'; 130],
            screens: [b'-'; 6001],
            permissions: [[0; 8]; 32],
        }
    }

    /// Starts a terminal on the areas, or starts it anew: three partitions, the one in the middle passive, and power
    /// that no call switches off.
    #[tactic(auto, unfolding(crate::specs::Given::active, crate::specs::Given::text))]
    pub fn start(&mut self, terminal: Terminal) -> Started
        ensures started { start_of result self.new.arena self.new.tables self.new.screens self.new.permissions ≡ start terminal 3 active false text self.old.image self.old.arena self.old.tables self.old.screens self.old.permissions }
        ensures image { self.new.image ≡ self.old.image }
    {
        terminal.start(
            3,
            [true, false, true, true, true, true, true, true],
            false,
            given::TEXT,
            &self.image,
            &mut self.arena,
            &mut self.tables,
            &mut self.screens,
            &mut self.permissions,
        )
    }

    /// Whether the password table of partition 0 in memory is the file on the store, byte for byte.
    pub fn together(&self) -> bool
        ensures { result ≡ same_bytes (part 105 84 self.now.image) (part 0 84 self.now.tables) }
    {
        search::same(
            parts::piece(&self.image, 105, 84),
            parts::piece(&self.tables, 0, 84),
        )
    }
}
