// Lines, words and numbers.
ghost use Rattle.std.specs.Prelude.{◌≡◌, drop};
ghost use Rattle.octets.specs.Search.{index_of};
ghost use Rattle.replay_text.specs.Words.{number_of};

use octets::search;
use text::{gaps, tokens};

/// How many bytes stand before the next `mark`, from place `at` on; all that are left where there is none.
pub fn before(mark: u8, text: &[u8], at: usize) -> usize
    ensures { result ≡ index_of mark (drop at text.now) }
{
    let from = at.min(text.len());
    search::find(&text[from..], mark)
}

/// A number as in a set-up text, and nothing else: one digit or more, at most 4,294,967,295.
#[tactic(auto, unfolding(crate::specs::Words::number_of, crate::specs::Words::whole))]
pub fn number_of(word: &[u8]) -> Option<u64>
    ensures { result ≡ number_of word.now }
{
    let (value, next) = tokens::number_at(word, 0)?;
    if gaps::token_place(word, 0) != 0 || next != word.len() {
        return None;
    }
    Some(value)
}
