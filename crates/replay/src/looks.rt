// `show` and `screen`: what the running terminal and its areas are now.
use super::line::{BadLine, Line, Words};
use super::session::Session;
use devices::screen::{CELLS, COLUMNS};
use octets::parts;
use state::{Login, PARTITIONS};

/// What is to be seen.
#[derive(Clone, Copy, Debug)]
pub enum Look {
    /// The state, and the digests of the areas.
    Show,
    /// The screen of a partition.
    Screen(u32),
}

impl Look {
    /// `show`
    pub fn show(words: Words) -> Result<Line, BadLine> {
        words.none()?;
        Ok(Line::Look(Look::Show))
    }

    /// `screen P`
    pub fn screen(words: Words) -> Result<Line, BadLine> {
        let [partition, ..] = words.read(b"n")?.numbers;
        Ok(Line::Look(Look::Screen(partition)))
    }
}

// The permission table, row by row.
fn flat(permissions: &[[u8; 8]; 32]) -> [u8; 256] {
    let mut rights = [0; 256];
    for (right, granted) in rights.iter_mut().zip(permissions.iter().flatten()) {
        *right = *granted;
    }
    rights
}

impl Session<'_> {
    /// Prints what a line looks at.
    pub fn look(&mut self, look: Look) {
        match look {
            Look::Show => self.show(),
            Look::Screen(partition) => self.show_screen(partition),
        }
    }

    // The terminal: its focus and marks, then a line for each active partition; and the areas.
    fn show(&mut self) {
        if self.accepted {
            self.show_head();
            for p in 0..PARTITIONS {
                self.show_partition(p);
            }
        } else {
            self.answers.text(b"focus - stopped 0 off 0\n");
        }
        self.show_areas();
    }

    // `focus F stopped S off O`
    fn show_head(&mut self) {
        let state = self.terminal.state;
        self.answers.number(b"focus ", state.focus);
        self.answers.flag(b" stopped ", state.stopped);
        self.answers.flag(b" off ", state.off);
        self.answers.end_line();
    }

    // `partition P cursor C faults KS login WHO queue BYTES`; nothing for a passive partition.
    fn show_partition(&mut self, p: usize) {
        if !self.terminal.plan.is_active(p) {
            return;
        }
        let part = self.terminal.state.part(p);
        self.answers.number(b"partition ", p);
        self.answers.number(b" cursor ", part.cursor);
        self.answers.flag(b" faults ", part.keyfault);
        self.answers.flag(b"", part.screenfault);
        match part.login.user {
            Login::Nobody => self.answers.text(b" login -"),
            Login::User { place } => self.answers.number(b" login ", place),
        }
        self.answers.bytes(
            b" queue ",
            parts::piece(&part.keyboard.keys, 0, part.keyboard.held),
        );
        self.answers.end_line();
    }

    // `store D`
    fn show_digest(&mut self, name: &[u8], digest: &[u8; 32]) {
        self.answers.bytes(name, digest);
        self.answers.end_line();
    }

    // The digests of the areas and of the permission table.
    fn show_areas(&mut self) {
        let store = sha256::digest(self.store.bytes());
        self.show_digest(b"store ", &store);
        let arena = sha256::digest(self.arena.bytes());
        self.show_digest(b"arena ", &arena);
        let tables = sha256::digest(self.tables.bytes());
        self.show_digest(b"tables ", &tables);
        let screens = sha256::digest(self.screens.bytes());
        self.show_digest(b"screens ", &screens);
        let permissions = sha256::digest(&flat(&self.permissions));
        self.show_digest(b"permissions ", &permissions);
    }

    // The rows of a screen, or that there is none to see.
    fn show_screen(&mut self, partition: u32) {
        let p = partition as usize;
        let cells = parts::piece(self.screens.bytes(), CELLS * p, CELLS);
        if cells.len() < CELLS || !self.terminal.plan.is_active(p) {
            self.answers.text(b"screen -\n");
            return;
        }
        for row in cells.chunks(COLUMNS) {
            self.answers.cells(row);
            self.answers.end_line();
        }
    }
}
