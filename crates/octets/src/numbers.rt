// Numbers of two and of four bytes, the lowest byte first.
ghost use Rattle.std.specs.Prelude.{◌≡◌, get_or};
ghost use Rattle.octets.specs.Lists.{part, write_at};
ghost use Rattle.octets.specs.Numbers.{little, spelled};

use super::parts;

// The byte at place `at`; behind the end 0.
fn byte(s: &[u8], at: usize) -> u8
    ensures { result ≡ get_or s.now at 0 }
{
    s.get(at).copied().unwrap_or(0)
}

/// The number that the two bytes from place `at` on spell, the lowest byte first; a byte behind the end counts as 0.
// Stays beside `read32`, as `write16` beside `write32`: two public names, and each is one call of the library.
#[tactic(auto, using(crate::proofs::Bytes::little_2, crate::specs::PartLaws::length_part))]
pub fn read16(s: &[u8], at: usize) -> u32
    ensures { result ≡ little (part at 2 s.now) }
{
    let bytes = parts::piece(s, at, 2);
    u32::from(u16::from_le_bytes([byte(bytes, 0), byte(bytes, 1)]))
}

/// The number that the four bytes from place `at` on spell, the lowest byte first; a byte behind the end counts as 0.
#[tactic(auto, using(crate::proofs::Bytes::little_4, crate::specs::PartLaws::length_part))]
pub fn read32(s: &[u8], at: usize) -> u32
    ensures { result ≡ little (part at 4 s.now) }
{
    let rest = parts::piece(s, at, 4);
    let bytes = [byte(rest, 0), byte(rest, 1), byte(rest, 2), byte(rest, 3)];
    u32::from_le_bytes(bytes)
}

/// Spells the lower half of `number` in the two bytes from place `at` on, the lowest byte first, as far as the row
/// goes.
#[tactic(auto, using(crate::proofs::Bytes::spelled_2))]
pub fn write16(s: &mut [u8], at: usize, number: u32)
    ensures { s.new ≡ write_at at (spelled 2 number) s.old }
{
    parts::lay(&number.to_le_bytes()[..2], s, at);
}

/// Spells `number` in the four bytes from place `at` on, the lowest byte first, as far as the row goes.
#[tactic(auto, using(crate::proofs::Bytes::spelled_4))]
pub fn write32(s: &mut [u8], at: usize, number: u32)
    ensures { s.new ≡ write_at at (spelled 4 number) s.old }
{
    parts::lay(&number.to_le_bytes(), s, at);
}
