// The arctangent and sine tables at 256 and at 1,024 steps, made in whole numbers (docs/TABLES.md).
#![tactic(auto)]

ghost use Rattle.std.specs.Prelude.{◌≡◌, ◌+◌, ◌*◌, ◌≤◌, get_or};
ghost use Rattle.num.specs.Nearest.{nearest};
ghost use Rattle.tables.specs.Tables.{radian, fractions, deeper, euler, atan_entry, sine_terms, less, alternating, sine_entry};
ghost use Rattle.tables.specs.Sizes.{most_divisor, most_entry, Place, AtMostHalf, AtMostOne};

pub mod steps;

// The entries of the tables of 256 and of 1,024 steps.
pub const COARSE_ENTRIES: usize = 257;

pub const FINE_ENTRIES: usize = 1025;

// 1 with twenty fractional bits, which the numbers inside an entry's series have.
const ONE: u64 = 1048576;

// 32,768 / π, with them.
const RADIAN: u64 = 10937044409;

// How many fractions the arctangent's series has.
const FRACTIONS: u64 = 32;

const TERMS: usize = 8;

// 16,384·(π/2)^(2k+1)/(2k+1)! for k in 0..8, with the fractional bits.
const SINE_TERMS: [u64; TERMS] = [
    26986075409,
    11097578693,
    1369108894,
    80431924,
    2756359,
    61828,
    978,
    11,
];

// a / b rounded to the nearest, half going up.
fn nearest(a: u64, b: u64) -> u16
    requires { (1 ≤ b) × (b ≤ most_divisor) × (a ≤ most_entry * b) }
    ensures { result ≡ nearest a b }
{
    ((a + b / 2) / b) as u16
}

// A bracket of the arctangent's series: 1, a radian here, and fraction k times x, the bracket inside it.
#[tactic(auto, using(crate::proofs::Sizes::bracket_le), unfolding(crate::specs::Tables::deeper))]
fn deeper(s: u64, q: u64, k: u64, x: u64) -> u64
    requires { AtMostHalf s q × (k ≤ fractions) × (x ≤ 2 * radian) }
    ensures { (result ≡ deeper s q k x) × (result ≤ 2 * radian) }
{
    RADIAN + x * (2 * k * s) / ((2 * k + 1) * q)
}

// The arctangent's series, from the innermost bracket out.
fn euler(s: u64, q: u64) -> u64
    requires { AtMostHalf s q }
    ensures { (result ≡ euler s q 1 fractions) × (result ≤ 2 * radian) }
{
    let mut x = RADIAN;
    for k in (1..=FRACTIONS).rev() {
        x = deeper(s, q, k, x);
    }
    x
}

#[tactic(auto, unfolding(crate::specs::Tables::atan_entry))]
fn atan_entry(n: u64, i: u64) -> u16
    requires { Place n i }
    ensures { result ≡ atan_entry n i }
{
    let s = i * i;
    let q = s + n * n;
    nearest(euler(s, q) * (i * n), q * ONE)
}

// A bracket of the sine's series: a term, less s / q times x, the bracket inside it.
#[tactic(auto, unfolding(crate::specs::Tables::less))]
fn less(s: u64, q: u64, a: u64, x: u64) -> u64
    requires { AtMostOne s q × (x ≤ a) × (a ≤ get_or sine_terms 0 0) }
    ensures { (result ≡ less s q a x) × (result ≤ a) }
{
    a - x * s / q
}

// The sine's series, from the innermost bracket out.
fn alternating(s: u64, q: u64) -> u64
    requires { AtMostOne s q }
    ensures { (result ≡ alternating s q sine_terms) × (result ≤ get_or sine_terms 0 0) }
{
    let mut x = 0;
    for &a in SINE_TERMS.iter().rev() {
        x = less(s, q, a, x);
    }
    x
}

#[tactic(auto, unfolding(crate::specs::Tables::sine_entry))]
fn sine_entry(n: u64, i: u64) -> u16
    requires { Place n i }
    ensures { result ≡ sine_entry n i }
{
    nearest(alternating(i * i, n * n) * i, n * ONE)
}
