// SHA-256 as FIPS 180-4 defines it. `specs/` says what a digest is, section by section; every function
// here is proved to give just that, for every message.
#![tactic(auto)]

mod padding;
mod rounds;
mod words;

ghost use Rattle.std.specs.Prelude.{◌≡◌};
ghost use Rattle.sha256.specs.Constants.{H0};
ghost use Rattle.sha256.specs.Compression.{compress as Compression·compress};
ghost use Rattle.sha256.specs.Digest.{digest as Digest·digest};

use rounds::Turn;

// The hash value before the first block, H(0) of section 5.3.3.
pub fn start() -> [u32; 8]
    ensures { result ≡ H0 }
{
    [
        0x6a09_e667,
        0xbb67_ae85,
        0x3c6e_f372,
        0xa54f_f53a,
        0x510e_527f,
        0x9b05_688c,
        0x1f83_d9ab,
        0x5be0_cd19,
    ]
}

// The hash value after one block more (section 6.2.2).
pub fn compress(state: [u32; 8], block: [u32; 16]) -> [u32; 8]
    ensures { result ≡ Compression·compress state block }
{
    let begun = Turn {
        state,
        window: block,
    };
    let first = rounds::first_quarter(begun);
    let second = rounds::second_quarter(first);
    let third = rounds::third_quarter(second);
    let done = rounds::fourth_quarter(third);
    let working = done.state;
    rounds::sums(working, state)
}

// The digest of a message. There is no message that it refuses.
pub fn digest(message: &[u8]) -> [u8; 32]
    ensures { result ≡ Digest·digest message.now }
{
    let blocks = padding::count(message.len());
    let mut state = start();
    for i in 0..blocks {
        let next = compress(state, padding::block(message, i));
        state = next;
    }
    words::joined(state)
}
