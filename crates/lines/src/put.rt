// Whole lines, and their fields.
ghost use Rattle.std.specs.Prelude.{◌≡◌, ◌||◌, eqb};

use super::output::Output;

// Permissions, as a set-up's rows have them; any other number is none. They stay numbers: a line is promised for each.
const READ_ONLY: u8 = 1;

const READ_WRITE: u8 = 2;

/// A segment, as its line shows it.
#[derive(Clone, Copy, Debug)]
pub enum Entry<'a> {
    Dseg { path: &'a [u8] },
    Mseg { size: u64 },
}

// Whether a segment has a line for a partition that is granted this.
fn is_shown(granted: u8) -> bool
    ensures { result ≡ eqb granted 1 || eqb granted 2 }
{
    matches!(granted, READ_ONLY | READ_WRITE)
}

impl<'a> Output<'a> {
    ghost use Rattle.lines.specs.Lines.{header_line, permission, line, refusal_line};
    ghost use Rattle.lines.specs.Entries.{letter_of, what_of};
    ghost use Rattle.lines.specs.Wrote.{Put};

    /// "partitions 3 dsegs 1 msegs 1"
    pub fn put_header(&mut self, partitions: usize, dsegs: usize, msegs: usize)
        ensures { Put (header_line partitions dsegs msegs) self.old self.new }
    {
        self.put(b"partitions ");
        self.put_decimal(partitions as u64);
        self.put(b" dsegs ");
        self.put_decimal(dsegs as u64);
        self.put(b" msegs ");
        self.put_decimal(msegs as u64);
        self.put(b"\n");
    }

    /// "refused 413 line 3"
    pub fn put_refusal(&mut self, number: u32, row: usize)
        ensures { Put (refusal_line number row) self.old self.new }
    {
        self.put(b"refused ");
        self.put_decimal(u64::from(number));
        self.put(b" line ");
        self.put_decimal(row as u64);
        self.put(b"\n");
    }

    // " RO " or " RW "
    #[tactic(auto, unfolding(crate::specs::Lines::permission))]
    fn put_permission(&mut self, granted: u8)
        ensures { Put (permission granted) self.old self.new }
    {
        if granted == READ_WRITE {
            self.put(b" RW ")
        } else {
            self.put(b" RO ")
        }
    }

    // " D " or " M "
    fn put_letter(&mut self, segment: Entry)
        ensures { Put (letter_of segment.entry) self.old self.new }
    {
        match segment {
            Entry::Dseg { .. } => self.put(b" D "),
            Entry::Mseg { .. } => self.put(b" M "),
        }
    }

    // A dseg's path, or an mseg's size in bytes.
    fn put_what(&mut self, segment: Entry)
        ensures { Put (what_of segment.entry) self.old self.new }
    {
        match segment {
            Entry::Dseg { path } => self.put(path),
            Entry::Mseg { size } => self.put_decimal(size),
        }
    }

    /// The line of segment i for partition p, which is granted RO (1) or RW (2); for any other permission nothing.
    pub fn put_segment(&mut self, p: usize, i: usize, granted: u8, segment: Entry)
        ensures { Put (line p (letter_of segment.entry) i granted (what_of segment.entry)) self.old self.new }
    {
        if !is_shown(granted) {
            return;
        }
        self.put_decimal(p as u64);
        self.put_letter(segment);
        self.put_decimal(i as u64);
        self.put_permission(granted);
        self.put_what(segment);
        self.put(b"\n");
    }
}
