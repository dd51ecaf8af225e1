// The first line of the input: a letter for each partition.
ghost use Rattle.std.specs.Prelude.{◌≡◌};
ghost use Rattle.std.specs.List.{list_all};
ghost use Rattle.lister.specs.Listing.{letter_a, flags};
ghost use Rattle.lister.specs.Laws.{is_letter};

// Whether the row is made of A and P.
pub fn only_letters(row: &[u8]) -> bool
    ensures { result ≡ list_all is_letter row.now }
{
    row.iter().all(|b| matches!(b, b'A' | b'P'))
}

// Whether letter p of the row is an A.
#[tactic(auto, unfolding(crate::specs::Listing::letter_a))]
fn letter_a(row: &[u8], p: usize) -> bool
    ensures { result ≡ letter_a row.now p }
{
    row.get(p) == Some(&b'A')
}

// Which of eight partitions are active.
#[tactic(auto, unfolding(crate::specs::Listing::flags))]
pub fn flags(row: &[u8]) -> [bool; 8]
    ensures { result ≡ flags row.now }
{
    std::array::from_fn(|p| letter_a(row, p))
}
