// Words of 32 bits and the six functions of FIPS 180-4, section 4.1.2.
//
// The code writes Ch, Maj and the sigmas with fewer operations than the definitions do; the laws in
// `proofs/Bits.antt` and `proofs/Rotations.antt` say that they are the same.
ghost use Rattle.std.specs.Prelude.{◌≡◌, ◌<◌};
ghost use Rattle.sha256.specs.Words.{bytes_of, rotr};
ghost use Rattle.sha256.specs.Functions.{Ch, Maj, Σ0, Σ1, σ0, σ1};
ghost use Rattle.sha256.specs.Digest.{joined as Digest·joined};

// x rotated to the right by n bits. Stays: a helper of our own, by the project's rule of a digest of its own
// (docs/DECISIONS.md, "Forms that stay").
fn rotate(x: u32, n: u32) -> u32
    requires { (0 < n) × (n < 32) }
    ensures { result ≡ rotr n x }
{
    (x >> n) | (x << (32 - n))
}

// Bit by bit, y where x has 1 and z where it has 0.
pub(crate) fn choose(x: u32, y: u32, z: u32) -> u32
    ensures { result ≡ Ch x y z }
{
    ((y ^ z) & x) ^ z
}

// Bit by bit, what at least two of the three have.
pub(crate) fn majority(x: u32, y: u32, z: u32) -> u32
    ensures { result ≡ Maj x y z }
{
    ((x ^ y) & (y ^ z)) ^ y
}

// The capital sigmas, on the working variables. 2, 13 and 22 are 2, 2 + 11 and 2 + 11 + 9.
pub(crate) fn sigma_a(x: u32) -> u32
    ensures { result ≡ Σ0 x }
{
    rotate(rotate(rotate(x, 9) ^ x, 11) ^ x, 2)
}

pub(crate) fn sigma_e(x: u32) -> u32
    ensures { result ≡ Σ1 x }
{
    rotate(rotate(rotate(x, 14) ^ x, 5) ^ x, 6)
}

// The small sigmas, on the schedule's words.
pub(crate) fn sigma_0(x: u32) -> u32
    ensures { result ≡ σ0 x }
{
    rotate(rotate(x, 11) ^ x, 7) ^ (x >> 3)
}

pub(crate) fn sigma_1(x: u32) -> u32
    ensures { result ≡ σ1 x }
{
    rotate(rotate(x, 2) ^ x, 17) ^ (x >> 10)
}

// A word as four bytes, the highest first.
#[tactic(auto, unfolding(crate::specs::Words::bytes_of))]
fn bytes_of(x: u32) -> [u8; 4]
    ensures { result ≡ bytes_of x }
{
    x.to_be_bytes()
}

// The eight words as thirty-two bytes.
pub(crate) fn joined(v: [u32; 8]) -> [u8; 32]
    ensures { result ≡ Digest·joined v }
{
    let a = bytes_of(v[0]);
    let b = bytes_of(v[1]);
    let c = bytes_of(v[2]);
    let d = bytes_of(v[3]);
    let e = bytes_of(v[4]);
    let f = bytes_of(v[5]);
    let g = bytes_of(v[6]);
    let h = bytes_of(v[7]);
    [
        a[0], a[1], a[2], a[3], b[0], b[1], b[2], b[3], c[0], c[1], c[2], c[3], d[0], d[1], d[2],
        d[3], e[0], e[1], e[2], e[3], f[0], f[1], f[2], f[3], g[0], g[1], g[2], g[3], h[0], h[1],
        h[2], h[3],
    ]
}
