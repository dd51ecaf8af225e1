//! The set-up that a text describes, and what is refused in it at start. It does not know the terminal.
//!
//! No public function asks anything of its arguments: every text, every count of partitions and every set-up has its
//! answer.
#![tactic(auto)]

use checks::Refusal;
pub use octets::span::Span;
use text::gaps;

mod judging;
mod rules;

ghost use Rattle.std.specs.Prelude.{◌≡◌, false, ◌++◌, ◌+◌, ◌<◌, ◌≤◌, ◌-◌, get_or, replicate, set, take};
ghost use Rattle.checks.specs.Refusals.{answer};
ghost use Rattle.setup.specs.Setup.{begun, is_active, has_code, with_code, with_dseg, with_mseg};
ghost use Rattle.setup.specs.Rules.{limits};
ghost use Rattle.setup.specs.Reading.{ended, read, permission_table};
ghost use Rattle.setup.specs.Views.{outcome_of};

// The longest text, in bytes.
const LONGEST: usize = 16_384;

// Forty statements can be accepted: 8 CODE, 16 DSEG and 16 MSEG. A forty-first is refused by its checks.
const MOST_STATEMENTS: usize = 41;

/// A dseg (with a path, and size 0) or an mseg (with a size, and no path): its host, and the permission of each
/// partition: 0 NA, 1 RO, 2 RW, and 0 behind the last partition.
#[derive(Clone, Copy, Debug, PartialEq, Eq)]
pub struct Segment {
    pub path: Span,
    pub size: u64,
    pub host: usize,
    pub permissions: [u8; 8],
}

impl Segment {
    // What stands behind the last segment.
    const NONE: Segment = Segment {
        path: Span::NONE,
        size: 0,
        host: 0,
        permissions: [0; 8],
    };
}

/// Partitions and which of them are active; the CODE path of each; dsegs and msegs and how many there are. What is not
/// there is 0, so that equal set-ups are equal structs.
// Stays: rows with counts, since memory is fixed (docs/DECISIONS.md, "Forms that stay").
#[derive(Clone, Copy, Debug, PartialEq, Eq)]
pub struct Setup {
    pub partitions: usize,
    pub active: [bool; 8],
    pub code: [Span; 8],
    pub dsegs: [Segment; 16],
    pub dsegcount: usize,
    pub msegs: [Segment; 16],
    pub msegcount: usize,
}

/// Why a text is refused, and the line of the statement, counted from 1; 0 means no line.
#[derive(Clone, Copy, Debug, PartialEq, Eq)]
pub struct Refused {
    pub refusal: Refusal,
    pub line: usize,
}

/// A refusal that has no line.
impl From<Refusal> for Refused {
    ghost from_gives = { λ refusal refused. refused ≡ record { refusal = refusal; line = 0 } };

    fn from(refusal: Refusal) -> Refused {
        Refused { refusal, line: 0 }
    }
}

// A segment more in a row.
fn push(row: &mut [Segment; 16], count: &mut usize, segment: Segment)
    requires { count.old < 16 }
    ensures row_after { row.new ≡ set row.old count.old segment }
    ensures count_after { count.new ≡ count.old + 1 }
{
    row[*count] = segment;
    *count += 1;
}

impl Setup {
    /// Partition p is an active one.
    #[tactic(auto, unfolding(crate::specs::Setup::is_active))]
    pub fn is_active(self, p: usize) -> bool
        ensures { result ≡ is_active self p }
    {
        // Taken out first: a row that is read in place would have the whole set-up copied at each call.
        let active = self.active;
        p < self.partitions && active.get(p).is_some_and(|active| *active)
    }

    /// Partition p has a CODE statement.
    #[tactic(auto, unfolding(crate::specs::Setup::has_code))]
    pub fn has_code(self, p: usize) -> bool
        ensures { result ≡ has_code self p }
    {
        // Taken out first, as above.
        let code = self.code;
        code.get(p).is_some_and(|path| path.length != 0)
    }

    // The set-up with the CODE statement of partition p.
    fn with_code(mut self, p: usize, path: Span) -> Self
        ensures { result ≡ with_code p path self }
    {
        if p < 8 {
            self.code[p] = path;
        }
        self
    }

    // The set-up with one dseg more. Stays beside `with_mseg`: the definitions have both, and each is one line.
    #[tactic(auto, unfolding(crate::specs::Setup::with_dseg))]
    fn with_dseg(mut self, segment: Segment) -> Self
        requires { self.dsegcount < 16 }
        ensures { result ≡ with_dseg segment self }
    {
        push(&mut self.dsegs, &mut self.dsegcount, segment);
        self
    }

    // The set-up with one mseg more.
    #[tactic(auto, unfolding(crate::specs::Setup::with_mseg))]
    fn with_mseg(mut self, segment: Segment) -> Self
        requires { self.msegcount < 16 }
        ensures { result ≡ with_mseg segment self }
    {
        push(&mut self.msegs, &mut self.msegcount, segment);
        self
    }

    // Row i of the permission table: that of dseg i, of mseg i - 16 from row 16 on, and nothing behind row 31.
    fn row(&self, i: usize) -> [u8; 8]
        ensures { result ≡ get_or (permission_table self.now) i (replicate 8 0) }
    {
        if i < 16 {
            return self.dsegs[i].permissions;
        }
        if i < 32 {
            return self.msegs[i - 16].permissions;
        }
        [0; 8]
    }
}

/// The permissions of every segment: row i for dseg i, row 16 + i for mseg i.
pub fn permission_table(setup: Setup) -> [[u8; 8]; 32]
    ensures { result ≡ permission_table setup }
{
    let mut table = [[0u8; 8]; 32];
    // Stays by index: each row is found in one of two lists by its number, here and in `row`.
    for i in 0..32 {
        table[i] = setup.row(i);
    }
    table
}

// The flags with all from place n on cleared.
fn flags(n: usize, active: [bool; 8]) -> [bool; 8]
    requires { n ≤ 8 }
    ensures { result ≡ take n active ++ replicate (8 - n) false }
{
    let mut kept = active;
    kept[n..].fill(false);
    kept
}

// The set-up before the first statement.
#[tactic(auto, unfolding(crate::specs::Setup::begun))]
fn begun(count: u32, active: [bool; 8]) -> Setup
    ensures { result ≡ begun count active }
{
    let partitions = count.min(8) as usize;
    Setup {
        partitions,
        active: flags(partitions, active),
        code: [Span::NONE; 8],
        dsegs: [Segment::NONE; 16],
        dsegcount: 0,
        msegs: [Segment::NONE; 16],
        msegcount: 0,
    }
}

/// What is refused before the text is looked at: 401 or 402.
#[tactic(auto, unfolding(crate::specs::Rules::limits, checks::specs::Checks::after, checks::specs::Checks::refused))]
pub fn limits(count: u32, active: [bool; 8], bytes: usize) -> Result<(), Refusal>
    ensures { answer result ≡ limits count active bytes }
{
    if rules::bad_partitions(count, active) {
        return Err(Refusal::Setup);
    }
    if LONGEST < bytes {
        return Err(Refusal::TextLong);
    }
    Ok(())
}

// Behind the last statement.
#[tactic(auto, unfolding(crate::specs::Reading::ended))]
fn ended(setup: Setup) -> Result<Setup, Refused>
    ensures { outcome_of result ≡ ended setup }
{
    if rules::code_missing(&setup) {
        return Err(Refusal::NoCode.into());
    }
    Ok(setup)
}

/// Reads a text, statement by statement. `look`: whether a path has to be in the image.
pub fn read(
    look: bool,
    image: &[u8],
    text: &[u8],
    count: u32,
    active: [bool; 8],
) -> Result<Setup, Refused>
    ensures { outcome_of result ≡ read look image.now text.now count active }
{
    let reading = judging::Reading { look, image, text };
    let mut progress = judging::Progress {
        next: 0,
        rank: judging::Rank::Start,
        setup: begun(count, active),
    };
    for _ in 0..MOST_STATEMENTS {
        let place = gaps::token_place(text, progress.next);
        if text.len() <= place {
            return ended(progress.setup);
        }
        progress = reading.judge(place, &progress)?;
    }
    Err(Refusal::Syntax.into())
}
