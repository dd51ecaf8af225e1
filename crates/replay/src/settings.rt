// The lines before start, and start. The settings print nothing.
use super::line::{BadLine, Line, Words};
use super::session::Session;
use replay_text::letters;
use replay_text::letters::Letters;

/// What the next start is given; `arena`, `tables` and `screens` take effect at once. The bytes of a text and of an
/// image are still spelt.
#[derive(Clone, Copy)]
pub enum Setting<'a> {
    /// How many partitions there are, and which of them are active.
    Partitions(Letters),
    /// Whether powerdown can switch the power off.
    Soft(bool),
    /// How long the arena is.
    Arena(u32),
    /// How long the table area is.
    Tables(u32),
    /// How long the screen area is.
    Screens(u32),
    /// A piece of the set-up text.
    Text(&'a [u8]),
    /// A piece of the store.
    Image(&'a [u8]),
    /// The set-up text and the store are taken away.
    Clear,
}

// The length of an area.
fn length_of(words: Words) -> Result<u32, BadLine> {
    let [length, ..] = words.read(b"a")?.numbers;
    Ok(length)
}

impl<'a> Setting<'a> {
    /// `partitions LETTERS`
    pub fn partitions(words: Words<'a>) -> Result<Line<'a>, BadLine> {
        let letters = letters::read(words.rest()).map_err(|_| BadLine)?;
        Ok(Line::Setting(Setting::Partitions(letters)))
    }

    /// `soft yes`, `soft no`
    pub fn soft(words: Words<'a>) -> Result<Line<'a>, BadLine> {
        let [yes, ..] = words.read(b"o")?.numbers;
        Ok(Line::Setting(Setting::Soft(yes == 1)))
    }

    /// `arena N`
    pub fn arena(words: Words<'a>) -> Result<Line<'a>, BadLine> {
        Ok(Line::Setting(Setting::Arena(length_of(words)?)))
    }

    /// `tables N`
    pub fn tables(words: Words<'a>) -> Result<Line<'a>, BadLine> {
        Ok(Line::Setting(Setting::Tables(length_of(words)?)))
    }

    /// `screens N`
    pub fn screens(words: Words<'a>) -> Result<Line<'a>, BadLine> {
        Ok(Line::Setting(Setting::Screens(length_of(words)?)))
    }

    /// `text BYTES`
    pub fn text(words: Words<'a>) -> Result<Line<'a>, BadLine> {
        Ok(Line::Setting(Setting::Text(words.rest())))
    }

    /// `image BYTES`
    pub fn image(words: Words<'a>) -> Result<Line<'a>, BadLine> {
        Ok(Line::Setting(Setting::Image(words.rest())))
    }

    /// `clear`
    pub fn clear(words: Words<'a>) -> Result<Line<'a>, BadLine> {
        words.none()?;
        Ok(Line::Setting(Setting::Clear))
    }
}

impl Session<'_> {
    /// Takes a setting over; a text or an image that is wrong or too long is bad.
    pub fn set(&mut self, setting: Setting) -> Result<(), BadLine> {
        match setting {
            Setting::Partitions(letters) => self.partitions = letters,
            Setting::Soft(soft) => self.soft = soft,
            Setting::Arena(length) => {
                self.arena.lend(length);
            }
            Setting::Tables(length) => {
                self.tables.lend(length);
            }
            Setting::Screens(length) => {
                self.screens.lend(length);
            }
            Setting::Text(word) => return self.text.append(word),
            Setting::Image(word) => return self.store.append(word),
            Setting::Clear => {
                self.text.clear();
                self.store.clear();
            }
        }
        Ok(())
    }

    /// Starts the terminal: `start NUMBER line LINE`.
    pub fn start(&mut self) {
        let Letters { count, active } = self.partitions;
        let started = self.terminal.start(
            count,
            active,
            self.soft,
            self.text.bytes(),
            self.store.bytes(),
            self.arena.bytes_mut(),
            self.tables.bytes_mut(),
            self.screens.bytes_mut(),
            &mut self.permissions,
        );
        self.terminal = started.terminal;
        self.accepted |= started.number == 0;
        self.answers.number(b"start ", started.number as usize);
        self.answers.number(b" line ", started.line);
        self.answers.end_line();
    }
}
