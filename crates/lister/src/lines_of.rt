// The lines of a set-up.
ghost use Rattle.std.specs.Prelude.{◌≡◌, ◌<◌, ◌≤◌, length};
ghost use Rattle.lines.specs.Entries.{letter_of, what_of};
ghost use Rattle.lines.specs.Wrote.{Put};
ghost use Rattle.lister.specs.Listing.{lines_of, partition_lines, setup_lines};
ghost use Rattle.lister.specs.Kinds.{letter, what, row_lines};

use lines::{Entry, Output};
use octets::parts;
use setup::{Segment, Setup};

// Which segments a row has. A dseg's path stands in the text.
#[derive(Clone, Copy, Debug)]
enum Kind<'a> {
    Dsegs { text: &'a [u8] },
    Msegs,
}

// A segment, as its line shows it.
fn entry<'a>(kind: Kind<'a>, segment: &Segment) -> Entry<'a>
    ensures letter { letter_of result ≡ letter kind.entry }
    ensures what { what_of result ≡ what kind.entry segment.now }
{
    match kind {
        Kind::Dsegs { text } => Entry::Dseg {
            path: segment.path.of(text),
        },
        Kind::Msegs => Entry::Mseg { size: segment.size },
    }
}

// The lines of the first n segments of a row for partition p.
fn put_segments(out: &mut Output, kind: Kind, segments: &[Segment], n: usize, p: usize)
    requires there { n ≤ length segments.now }
    requires partition { p < 8 }
    ensures { Put (row_lines kind.entry segments.now p n) out.old out.new }
{
    for (i, segment) in segments[..n].iter().enumerate() {
        out.put_segment(p, i, segment.permissions[p], entry(kind, segment));
    }
}

// The lines of partition p.
fn put_partition(out: &mut Output, text: &[u8], setup: &Setup, p: usize)
    requires { p < 8 }
    ensures { Put (lines_of text.now setup.now p) out.old out.new }
{
    if setup.is_active(p) {
        let dsegs = setup.dsegcount.min(16);
        put_segments(out, Kind::Dsegs { text }, &setup.dsegs, dsegs, p);
        let msegs = setup.msegcount.min(16);
        put_segments(out, Kind::Msegs, &setup.msegs, msegs, p);
    }
}

// The lines of all partitions.
fn put_partitions(out: &mut Output, text: &[u8], setup: &Setup)
    ensures { Put (partition_lines text.now setup.now 8) out.old out.new }
{
    for p in 0..8 {
        put_partition(out, text, setup, p);
    }
}

// The whole listing of a set-up.
pub fn put_setup(out: &mut Output, text: &[u8], setup: &Setup)
    ensures { Put (setup_lines text.now setup.now) out.old out.new }
{
    out.put_header(setup.partitions, setup.dsegcount, setup.msegcount);
    put_partitions(out, text, setup);
}
