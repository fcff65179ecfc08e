// The amplitude of an entry, isqrt(16·(im² + re²)), without a division, so that a loop over the entries runs in vectors.
ghost use Rattle.std.specs.Prelude.{◌≡◌, ℕ, ◌+◌, ◌*◌, ◌≤◌, ◌<◌, length, get_or};
ghost use Rattle.num.specs.Root.{root};
ghost use Rattle.num.specs.Wrap.{signed8};
ghost use Rattle.csi.specs.Digits.{Between};
ghost use Rattle.csi.specs.Features.{amplitude_at, amplitude_of, byte_square};
ghost use Rattle.csi.specs.Layout.{max_subcarriers};

// One binary digit of the root more: r + bit where its square is at most s, else r.
fn digit(s: u16, r: u16, bit: u16) -> u16
    requires { (1 ≤ bit) × Between s r (2 * bit) }
    ensures { Between s result bit }
{
    let t = r + bit;
    if t * t <= s { t } else { r }
}

// The largest r with r * r <= s, in eight digits.
fn isqrt16(s: u16) -> u16
    ensures { Between s result 1 }
{
    let r1 = digit(s, 0, 128);
    let r2 = digit(s, r1, 64);
    let r3 = digit(s, r2, 32);
    let r4 = digit(s, r3, 16);
    let r5 = digit(s, r4, 8);
    let r6 = digit(s, r5, 4);
    let r7 = digit(s, r6, 2);
    digit(s, r7, 1)
}

// What the root of 16·(r² + rest) has above 4·r.
fn quarters(r: u16, rest: u16) -> u16
    requires { (r ≤ 255) × (rest ≤ 2 * r) }
    ensures { (4 * r + result ≡ root (16 * (r * r + rest))) × (result ≤ 3) }
{
    if 3 * r + 1 < 2 * rest {
        return 3;
    }
    if r < rest {
        return 2;
    }
    if r < 2 * rest { 1 } else { 0 }
}

// The square of the signed number that a byte holds.
fn square(b: u8) -> u16
    ensures { (result ≡ byte_square b) × (result ≤ 16384) }
{
    let m = num::byte_magnitude(b) as u16;
    m * m
}

// The amplitude of the two signed numbers that these bytes hold.
pub(crate) fn amplitude(im: u8, re: u8) -> u16
    ensures { result ≡ amplitude_of (signed8 im) (signed8 re) }
{
    let s = square(im) + square(re);
    let r = isqrt16(s);
    4 * r + quarters(r, s - r * r)
}

// The amplitude of each entry, with data or not.
#[tactic(auto, unfolding(crate::specs::Features::amplitude_at))]
pub(crate) fn every(iq: &[u8], entries: usize) -> [u16; crate::MAX_SUBCARRIERS]
    requires { (entries ≤ max_subcarriers) × (2 * entries ≤ length iq.now) }
    ensures { (k : ℕ) → k < entries → get_or result k 0 ≡ amplitude_at iq.now k }
{
    let mut all = [0u16; crate::MAX_SUBCARRIERS];
    for (k, &[im, re]) in iq.as_chunks::<2>().0[..entries].iter().enumerate() {
        all[k] = amplitude(im, re);
    }
    all
}
