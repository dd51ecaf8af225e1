// The listing of a set-up text, from input bytes to output bytes.
#![tactic(auto)]

use checks::Refusal;
use octets::parts;
use setup::{Refused, Setup};

mod lines_of;
mod row;
mod show;

ghost use Rattle.std.specs.Prelude.{◌≡◌};
ghost use Rattle.lister.specs.Listing.{result_of, listed};
ghost use Rattle.lister.specs.Outcomes.{said, answer_behind};

/// The output is too short for the listing, and nothing was written.
#[derive(Clone, Copy, Debug, PartialEq, Eq)]
pub struct Short;

// Another byte in the first line, or no line feed behind it.
const BAD_LETTERS: Refused = Refused {
    refusal: Refusal::Setup,
    line: 0,
};

// What a first line and the text behind it describe.
fn read(letters: &[u8], text: &[u8]) -> Result<Setup, Refused>
    ensures { said text.now result ≡ answer_behind letters.now text.now }
{
    if !row::only_letters(letters) {
        return Err(BAD_LETTERS);
    }
    let count = letters.len().min(9) as u32;
    let active = row::flags(letters);
    setup::limits(count, active, text.len())?;
    setup::read(false, &[], text, count, active)
}

/// How many bytes the listing of any input has, written to the start of `output`.
///
/// # Errors
/// The output is too short for them: nothing was written.
pub fn listing(input: &[u8], output: &mut [u8]) -> Result<usize, Short>
    ensures { result_of result output.new ≡ listed input.now output.old }
{
    let n = octets::search::find(input, b'\n');
    if n == input.len() {
        return show::outcome(output, &[], &Err(BAD_LETTERS));
    }
    let letters = parts::piece(input, 0, n);
    let text = parts::piece(input, n + 1, input.len());
    show::outcome(output, text, &read(letters, text))
}
