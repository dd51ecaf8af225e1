// Parts of a row: a part lent, and bytes copied into a part.
ghost use Rattle.std.specs.Prelude.{◌≡◌, ◌+◌, min, replicate};
ghost use Rattle.octets.specs.Lists.{part, write_at, on_part};

/// The smaller of two numbers.
// Stays: a public function, which promises what std's `min` does.
pub fn least(a: usize, b: usize) -> usize
    ensures { result ≡ min a b }
{
    a.min(b)
}

/// The sum of two numbers, or `limit` where that is less.
pub fn sum(a: usize, b: usize, limit: usize) -> usize
    ensures { result ≡ min (a + b) limit }
{
    a.saturating_add(b).min(limit)
}

/// The n bytes from place `at` on, fewer where the row ends first.
pub fn piece(s: &[u8], at: usize, n: usize) -> &[u8]
    ensures { result.now ≡ part at n s.now }
{
    let start = at.min(s.len());
    let end = start + n.min(s.len() - start);
    &s[start..end]
}

/// Lays `from` over `to` from place `at` on, as much of it as fits.
pub fn lay(from: &[u8], to: &mut [u8], at: usize)
    ensures { to.new ≡ write_at at from.now to.old }
{
    let start = at.min(to.len());
    let fitting = piece(from, 0, to.len() - start);
    let end = start + fitting.len();
    to[start..end].copy_from_slice(fitting);
}

/// Lays `from` over the n bytes of `to` from place `at` on, from place `offset` of these on: nothing outside them
/// changes.
pub fn place(from: &[u8], to: &mut [u8], at: usize, n: usize, offset: usize)
    ensures { to.new ≡ on_part at n (write_at offset from.now) to.old }
{
    let fitting = piece(from, 0, n.saturating_sub(offset));
    lay(fitting, to, sum(at, offset, to.len()));
}

/// Makes the n bytes from place `at` on all the same, as many of them as there are.
pub fn fill(to: &mut [u8], at: usize, n: usize, byte: u8)
    ensures { to.new ≡ write_at at (replicate n byte) to.old }
{
    let start = at.min(to.len());
    let end = sum(start, n, to.len());
    to[start..end].fill(byte);
}
