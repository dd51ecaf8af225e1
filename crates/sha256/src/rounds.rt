// The sixty-four rounds on one block (FIPS 180-4, section 6.2.2, step 3), with the schedule beside them.
//
// There is no loop: in straight-line code the moving of the eight working variables and of the
// window is a renaming that costs nothing, and the constants stand in the code and not on the stack.
// Stays: four quarters of sixteen steps. A loop would read its constants from a table, and a table would be copied to
// the stack at each use (docs/DECISIONS.md).
ghost use Rattle.std.specs.Prelude.{◌≡◌};
ghost use Rattle.sha256.specs.Compression.{next_word, T1, T2, sums as Compression·sums};
ghost use Rattle.sha256.specs.Compression.{round as Compression·round};
ghost use Rattle.sha256.specs.Window.{slide as Window·slide, step as Window-step, steps, quarter};

use crate::words::{choose, majority, sigma_0, sigma_1, sigma_a, sigma_e};

// The working variables before a round, and the sixteen schedule words from that round's on.
#[derive(Clone, Copy)]
pub(crate) struct Turn {
    pub state: [u32; 8],
    pub window: [u32; 16],
}

#[tactic(auto, unfolding(crate::specs::Compression::T1, crate::specs::Words::add))]
fn first_sum(v: [u32; 8], k: u32, w: u32) -> u32
    ensures { result ≡ T1 k w v }
{
    v[7].wrapping_add(sigma_e(v[4]))
        .wrapping_add(choose(v[4], v[5], v[6]))
        .wrapping_add(k)
        .wrapping_add(w)
}

#[tactic(auto, unfolding(crate::specs::Compression::T2, crate::specs::Words::add))]
fn second_sum(v: [u32; 8]) -> u32
    ensures { result ≡ T2 v }
{
    sigma_a(v[0]).wrapping_add(majority(v[0], v[1], v[2]))
}

#[tactic(auto, unfolding(crate::specs::Compression::round, crate::specs::Words::add))]
fn round(v: [u32; 8], k: u32, w: u32) -> [u32; 8]
    ensures { result ≡ Compression·round k w v }
{
    let first = first_sum(v, k, w);
    let second = second_sum(v);
    let a = first.wrapping_add(second);
    let e = v[3].wrapping_add(first);
    [a, v[0], v[1], v[2], e, v[4], v[5], v[6]]
}

#[tactic(auto, unfolding(crate::specs::Compression::next_word, crate::specs::Words::add))]
fn next_word(w: [u32; 16]) -> u32
    ensures { result ≡ next_word 16 w }
{
    sigma_1(w[14])
        .wrapping_add(w[9])
        .wrapping_add(sigma_0(w[1]))
        .wrapping_add(w[0])
}

fn slide(w: [u32; 16]) -> [u32; 16]
    ensures { result ≡ Window·slide w }
{
    let next = next_word(w);
    [
        w[1], w[2], w[3], w[4], w[5], w[6], w[7], w[8], w[9], w[10], w[11], w[12], w[13], w[14],
        w[15], next,
    ]
}

fn step(x: Turn, k: u32) -> Turn
    ensures { result ≡ Window-step k x }
{
    let v = x.state;
    let w = x.window;
    let state = round(v, k, w[0]);
    let window = slide(w);
    Turn { state, window }
}

// Rounds 0 to 15.
pub(crate) fn first_quarter(x0: Turn) -> Turn
    ensures { result ≡ steps (quarter 0) x0 }
{
    let x1 = step(x0, 0x428a_2f98);
    let x2 = step(x1, 0x7137_4491);
    let x3 = step(x2, 0xb5c0_fbcf);
    let x4 = step(x3, 0xe9b5_dba5);
    let x5 = step(x4, 0x3956_c25b);
    let x6 = step(x5, 0x59f1_11f1);
    let x7 = step(x6, 0x923f_82a4);
    let x8 = step(x7, 0xab1c_5ed5);
    let x9 = step(x8, 0xd807_aa98);
    let x10 = step(x9, 0x1283_5b01);
    let x11 = step(x10, 0x2431_85be);
    let x12 = step(x11, 0x550c_7dc3);
    let x13 = step(x12, 0x72be_5d74);
    let x14 = step(x13, 0x80de_b1fe);
    let x15 = step(x14, 0x9bdc_06a7);
    step(x15, 0xc19b_f174)
}

// Rounds 16 to 31.
pub(crate) fn second_quarter(x0: Turn) -> Turn
    ensures { result ≡ steps (quarter 1) x0 }
{
    let x1 = step(x0, 0xe49b_69c1);
    let x2 = step(x1, 0xefbe_4786);
    let x3 = step(x2, 0x0fc1_9dc6);
    let x4 = step(x3, 0x240c_a1cc);
    let x5 = step(x4, 0x2de9_2c6f);
    let x6 = step(x5, 0x4a74_84aa);
    let x7 = step(x6, 0x5cb0_a9dc);
    let x8 = step(x7, 0x76f9_88da);
    let x9 = step(x8, 0x983e_5152);
    let x10 = step(x9, 0xa831_c66d);
    let x11 = step(x10, 0xb003_27c8);
    let x12 = step(x11, 0xbf59_7fc7);
    let x13 = step(x12, 0xc6e0_0bf3);
    let x14 = step(x13, 0xd5a7_9147);
    let x15 = step(x14, 0x06ca_6351);
    step(x15, 0x1429_2967)
}

// Rounds 32 to 47.
pub(crate) fn third_quarter(x0: Turn) -> Turn
    ensures { result ≡ steps (quarter 2) x0 }
{
    let x1 = step(x0, 0x27b7_0a85);
    let x2 = step(x1, 0x2e1b_2138);
    let x3 = step(x2, 0x4d2c_6dfc);
    let x4 = step(x3, 0x5338_0d13);
    let x5 = step(x4, 0x650a_7354);
    let x6 = step(x5, 0x766a_0abb);
    let x7 = step(x6, 0x81c2_c92e);
    let x8 = step(x7, 0x9272_2c85);
    let x9 = step(x8, 0xa2bf_e8a1);
    let x10 = step(x9, 0xa81a_664b);
    let x11 = step(x10, 0xc24b_8b70);
    let x12 = step(x11, 0xc76c_51a3);
    let x13 = step(x12, 0xd192_e819);
    let x14 = step(x13, 0xd699_0624);
    let x15 = step(x14, 0xf40e_3585);
    step(x15, 0x106a_a070)
}

// Rounds 48 to 63.
pub(crate) fn fourth_quarter(x0: Turn) -> Turn
    ensures { result ≡ steps (quarter 3) x0 }
{
    let x1 = step(x0, 0x19a4_c116);
    let x2 = step(x1, 0x1e37_6c08);
    let x3 = step(x2, 0x2748_774c);
    let x4 = step(x3, 0x34b0_bcb5);
    let x5 = step(x4, 0x391c_0cb3);
    let x6 = step(x5, 0x4ed8_aa4a);
    let x7 = step(x6, 0x5b9c_ca4f);
    let x8 = step(x7, 0x682e_6ff3);
    let x9 = step(x8, 0x748f_82ee);
    let x10 = step(x9, 0x78a5_636f);
    let x11 = step(x10, 0x84c8_7814);
    let x12 = step(x11, 0x8cc7_0208);
    let x13 = step(x12, 0x90be_fffa);
    let x14 = step(x13, 0xa450_6ceb);
    let x15 = step(x14, 0xbef9_a3f7);
    step(x15, 0xc671_78f2)
}

// Word by word, v added to h.
#[tactic(auto, unfolding(crate::specs::Compression::sums, crate::specs::Words::add))]
pub(crate) fn sums(v: [u32; 8], h: [u32; 8]) -> [u32; 8]
    ensures { result ≡ Compression·sums v h }
{
    [
        v[0].wrapping_add(h[0]),
        v[1].wrapping_add(h[1]),
        v[2].wrapping_add(h[2]),
        v[3].wrapping_add(h[3]),
        v[4].wrapping_add(h[4]),
        v[5].wrapping_add(h[5]),
        v[6].wrapping_add(h[6]),
        v[7].wrapping_add(h[7]),
    ]
}
