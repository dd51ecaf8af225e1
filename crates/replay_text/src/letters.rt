// The letters of a `partitions` line.
ghost use Rattle.std.specs.Prelude.{◌≡◌, ◌&&◌, ltb, length};
ghost use Rattle.std.specs.List.{list_all};
ghost use Rattle.replay_text.specs.Letters.{is_letter, letters_of};
ghost use Rattle.replay_text.specs.LetterLaws.{is_a, first_eight};

/// How many partitions (nine stand for all above eight), and which of the first eight are active.
#[derive(Clone, Copy, Debug)]
pub struct Letters {
    pub count: u32,
    pub active: [bool; 8],
}

// Whether the word is made of A and P. Stays, as `flags` does, beside those of the listing: each is a line or two, and
// each crate's definitions have a word of their own for it.
fn all_letters(word: &[u8]) -> bool
    ensures { result ≡ list_all is_letter word.now }
{
    word.iter().all(|b| matches!(b, b'A' | b'P'))
}

// One letter or more.
fn are_letters(word: &[u8]) -> bool
    ensures { result ≡ (ltb 0 (length word.now) && list_all is_letter word.now) }
{
    !word.is_empty() && all_letters(word)
}

// Whether letter i is an A.
#[tactic(auto, unfolding(crate::specs::LetterLaws::is_a))]
fn is_a(word: &[u8], i: usize) -> bool
    ensures { result ≡ is_a word.now i }
{
    word.get(i) == Some(&b'A')
}

// Which of the first eight letters are A.
#[tactic(auto, unfolding(crate::specs::LetterLaws::first_eight))]
fn flags(word: &[u8]) -> [bool; 8]
    ensures { result ≡ first_eight word.now }
{
    std::array::from_fn(|i| is_a(word, i))
}

/// One letter or more, A for an active partition and P for a passive one; those behind the ninth are read and dropped.
///
/// # Errors
///
/// Where it is no such word, with what is counted of it all the same: its bytes, and which of them are A.
#[tactic(auto, unfolding(crate::specs::Letters::letters_of, crate::specs::Letters::counted), using(crate::specs::LetterLaws::letters_all, crate::specs::LetterLaws::eight))]
pub fn read(word: &[u8]) -> Result<Letters, Letters>
    ensures { result ≡ letters_of word.now }
{
    let letters = Letters {
        count: word.len().min(9) as u32,
        active: flags(word),
    };
    if !are_letters(word) {
        return Err(letters);
    }
    Ok(letters)
}
