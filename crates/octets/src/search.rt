// Rows compared and searched.
ghost use Rattle.std.specs.Prelude.{◌≡◌, ◌≤◌, length, take};
ghost use Rattle.octets.specs.Same.{same_bytes};
ghost use Rattle.octets.specs.Search.{index_of};

use super::parts;

/// Whether two rows are the same.
// Stays: `==` under the word that the definitions have for it.
#[tactic(auto, using(crate::specs::Same::same_bytes_pointwise))]
pub fn same(a: &[u8], b: &[u8]) -> bool
    ensures { result ≡ same_bytes a.now b.now }
{
    a == b
}

/// The place of the first `byte`, or how many bytes there are where there is none.
// Stays a number for none, as `index_of` has it: what is asked for next is the part in front, which is then the whole.
#[tactic(auto, using(crate::proofs::Places::first_there))]
pub fn find(s: &[u8], byte: u8) -> usize
    ensures place { result ≡ index_of byte s.now }
    ensures within { result ≤ length s.now }
{
    s.iter().position(|&b| b == byte).unwrap_or(s.len())
}

/// The place of the first zero among the first `most` bytes, or how many bytes were looked at where there is none.
#[tactic(auto, unfolding(crate::specs::Lists::part))]
pub fn first_zero(s: &[u8], most: usize) -> usize
    ensures { result ≡ index_of 0 (take most s.now) }
{
    find(parts::piece(s, 0, most), 0)
}
