// One statement: read, judged, and taken into the set-up.
ghost use Rattle.std.specs.Prelude.{◌≡◌};
ghost use Rattle.checks.specs.Refusals.{number_of};
ghost use Rattle.setup.specs.Reading.{segment};

use super::{Refused, Segment, Setup, Span, rules};
use checks::Refusal;
use statements::{Grants, Kind, Statement};
use text::gaps;

// How far reading has come in the order of statements: CODE, DSEG, MSEG.
#[derive(Clone, Copy, Debug, PartialEq, Eq, PartialOrd, Ord)]
pub enum Rank {
    Start,
    Code,
    Dseg,
    Mseg,
}

// What reading has come to: the place behind the last statement, its rank, and the set-up with it.
#[derive(Clone, Copy, Debug, PartialEq, Eq)]
pub struct Progress {
    pub next: usize,
    pub rank: Rank,
    pub setup: Setup,
}

// A reading: the text, the image, and whether a path has to be in the image.
#[derive(Clone, Copy)]
pub struct Reading<'a> {
    pub look: bool,
    pub image: &'a [u8],
    pub text: &'a [u8],
}

impl<'a> Reading<'a> {
    ghost use Rattle.statements.specs.Statements.{statement_at, code_at, dseg_at, mseg_at};
    ghost use Rattle.setup.specs.Reading.{refused_at};
    ghost use Rattle.setup.specs.Views.{refused_of, judged_of, judged_by};

    // A refusal, with the line of the statement's first token, which stands at `place`.
    fn refused(self, refusal: Refusal, place: usize) -> Refused
        ensures { refused_of result ≡ refused_at self.entry.text.now place (number_of refusal) }
    {
        Refused {
            refusal,
            line: gaps::line_of(self.text, place),
        }
    }

    // Stay three functions: each takes its statement apart by `let .. else` (docs/DECISIONS.md, "Forms that stay").

    // A CODE statement, read from behind its word on.
    fn code(self, place: usize, behind: usize, before: &Progress) -> Result<Progress, Refused>
        ensures { judged_of result ≡ judged_by self.entry place before.now (code_at self.entry.text.now behind) }
    {
        let Statement::Code {
            partition,
            path,
            next,
        } = statements::code_at(self.text, behind)
        else {
            return Err(self.refused(Refusal::Syntax, place));
        };
        let p = partition as usize;
        if let Err(refusal) = rules::code_checked(self, before, p, path.of(self.text)) {
            return Err(self.refused(refusal, place));
        }
        Ok(Progress {
            next,
            rank: Rank::Code,
            setup: before.setup.with_code(p, path),
        })
    }

    // A DSEG statement, read from behind its word on.
    fn dseg(self, place: usize, behind: usize, before: &Progress) -> Result<Progress, Refused>
        ensures { judged_of result ≡ judged_by self.entry place before.now (dseg_at self.entry.text.now behind) }
    {
        let Statement::Dseg {
            index,
            path,
            grants,
            next,
        } = statements::dseg_at(self.text, behind)
        else {
            return Err(self.refused(Refusal::Syntax, place));
        };
        let index = index as usize;
        if let Err(refusal) = rules::dseg_checked(self, before, index, path.of(self.text), grants) {
            return Err(self.refused(refusal, place));
        }
        Ok(Progress {
            next,
            rank: Rank::Dseg,
            setup: before.setup.with_dseg(segment(path, 0, grants)),
        })
    }

    // An MSEG statement, read from behind its word on.
    fn mseg(self, place: usize, behind: usize, before: &Progress) -> Result<Progress, Refused>
        ensures { judged_of result ≡ judged_by self.entry place before.now (mseg_at self.entry.text.now behind) }
    {
        let Statement::Mseg {
            index,
            size,
            grants,
            next,
        } = statements::mseg_at(self.text, behind)
        else {
            return Err(self.refused(Refusal::Syntax, place));
        };
        let index = index as usize;
        if let Err(refusal) = rules::mseg_checked(&before.setup, index, size, grants) {
            return Err(self.refused(refusal, place));
        }
        Ok(Progress {
            next,
            rank: Rank::Mseg,
            setup: before.setup.with_mseg(segment(Span::NONE, size, grants)),
        })
    }

    // The next statement, whose first token stands at `place`.
    pub fn judge(self, place: usize, before: &Progress) -> Result<Progress, Refused>
        ensures { judged_of result ≡ judged_by self.entry place before.now (statement_at self.entry.text.now before.now.next) }
    {
        match statements::kind_at(self.text, before.next) {
            Kind::Code(behind) => self.code(place, behind, before),
            Kind::Dseg(behind) => self.dseg(place, behind, before),
            Kind::Mseg(behind) => self.mseg(place, behind, before),
            Kind::Other => Err(self.refused(Refusal::Syntax, place)),
        }
    }
}

// A segment with these grants.
fn segment(path: Span, size: u64, grants: Grants) -> Segment
    ensures { result ≡ segment path size grants }
{
    Segment {
        path,
        size,
        host: grants.host as usize,
        permissions: rules::permission_row(grants.permissions),
    }
}
