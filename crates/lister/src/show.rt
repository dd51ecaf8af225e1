// A text shown: it is counted first, and written only where it fits.
ghost use Rattle.std.specs.Prelude.{◌≡◌, length, min};
ghost use Rattle.octets.specs.Lists.{over};
ghost use Rattle.lines.specs.Wrote.{Put, most};
ghost use Rattle.lister.specs.Listing.{result_of, shown};
ghost use Rattle.lister.specs.Outcomes.{said};

use super::Short;
use super::lines_of::put_setup;
use lines::Output;
use setup::{Refused, Setup};

// The lines of a set-up, or the line of a refusal.
fn put_outcome(out: &mut Output, text: &[u8], outcome: &Result<Setup, Refused>)
    ensures { Put (said text.now outcome.now) out.old out.new }
{
    match outcome {
        Ok(setup) => put_setup(out, text, setup),
        Err(refused) => out.put_refusal(refused.refusal.number(), refused.line),
    }
}

// How many bytes these are.
#[tactic(auto, using(crate::specs::Laws::counted))]
fn count(text: &[u8], outcome: &Result<Setup, Refused>) -> usize
    ensures { result ≡ min (length (said text.now outcome.now)) most }
{
    let mut none = [];
    let mut out = Output::new(&mut none, 0);
    put_outcome(&mut out, text, outcome);
    out.at
}

// They, over the start of the output.
#[tactic(auto, using(crate::specs::Laws::laid))]
fn write(output: &mut [u8], text: &[u8], outcome: &Result<Setup, Refused>)
    ensures { output.new ≡ over (said text.now outcome.now) output.old }
{
    put_outcome(&mut Output::new(output, 0), text, outcome);
}

// They, over the start of the output; nothing is written where that is too short.
pub fn outcome(
    output: &mut [u8],
    text: &[u8],
    outcome: &Result<Setup, Refused>,
) -> Result<usize, Short>
    ensures { result_of result output.new ≡ shown (said text.now outcome.now) output.old }
{
    let n = count(text, outcome);
    if output.len() < n {
        return Err(Short);
    }
    write(output, text, outcome);
    Ok(n)
}
