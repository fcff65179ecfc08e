// Numbers: the integer square root, casts that wrap, signs, exact sums of products.
#![tactic(auto)]

ghost use Rattle.std.specs.Prelude.{◌≡◌, ◌<◌, ◌≤◌, ◌^◌, min, nat_abs, take};
ghost use Rattle.num.specs.Root.{root, Near};
ghost use Rattle.num.specs.Sign.{with_sign};
ghost use Rattle.num.specs.Sum.{dot_z, max_terms};
ghost use Rattle.num.specs.Wrap.{wrap16, signed8};

pub mod steps;

// The most subcarriers of a sample that are in use: features, angles and a window's row have no more entries.
pub const MAX_SUBCARRIERS: usize = 64;

// ---- the square root

// Less than 1 from the square root of n. A straight line gives four bits of the root from the upper eight of n, and
// each division doubles the bits.
fn near(n: u32) -> u32
    requires { 2 ^ 30 ≤ n }
    ensures { Near n result }
{
    let a = ((n >> 24) + 148) / 24;
    let b = 8 * a + (n >> 21) / a;
    128 * b + (n >> 9) / b
}

// The largest r with r * r <= v, from an estimate of it: one less than the estimate is at most the root, and one off.
fn settle(v: u64, estimate: u64) -> u64
    requires v_nonzero { 0 < v }
    requires near { Near v estimate }
    ensures { result ≡ root v }
{
    let r = estimate - 1;
    if 2 * r < v - r * r { r + 1 } else { r }
}

// The largest r with r * r <= v. The root of v is that of v shifted up by 2 * c places, shifted down by c.
pub fn isqrt64(v: u64) -> u64
    ensures { result ≡ root v }
{
    if v == 0 {
        return 0;
    }
    let c = u64::leading_zeros(v) / 2;
    let n = v << (2 * c);
    let b = near((n >> 32) as u32) as u64;
    settle(v, (32768 * b + (n >> 17) / b) >> c)
}

// The same for a u32.
pub fn isqrt(v: u32) -> u32
    ensures { result ≡ root v }
{
    if v == 0 {
        return 0;
    }
    let c = u32::leading_zeros(v) / 2;
    settle(v as u64, (near(v << (2 * c)) >> c) as u64) as u32
}

// ---- wraps and signs

// The low 16 bits of x, read as a signed number: Rust's `x as i16`.
pub fn wrap_i16(x: i64) -> i16
    ensures { result ≡ wrap16 x }
{
    let bits = (x.cast_unsigned() % 65536) as u16;
    bits.cast_signed()
}

// A magnitude with its sign put back.
pub fn with_sign(negative: bool, size: u16) -> i32
    ensures { result ≡ with_sign negative size }
{
    let size = i32::from(size);
    if negative { -size } else { size }
}

// The magnitude of the signed number that a byte holds: Rust's `(b as i8).unsigned_abs()`.
pub fn byte_magnitude(b: u8) -> u32
    ensures { (result ≡ nat_abs (signed8 b)) × (result ≤ 128) }
{
    u32::from(b.cast_signed().unsigned_abs())
}

// ---- sums of products

// The most products that a sum takes: 2^32 products of 16-bit numbers cannot leave 64 bits.
pub const MAX_TERMS: usize = 4294967296;

// How many products the sum over slices of these lengths has.
fn terms(a: usize, b: usize) -> usize
    ensures { result ≡ min a (min b max_terms) }
{
    a.min(b.min(MAX_TERMS))
}

// The sum of a[k]·b[k], exact, as far as both slices go (Rust's `zip`), over the first 2^32 elements at most.
pub fn dot_i16(a: &[i16], b: &[i16]) -> i64
    ensures { result ≡ dot_z (take max_terms a.now) b.now }
{
    let n = terms(a.len(), b.len());
    let mut sum: i64 = 0;
    for (x, y) in a[..n].iter().zip(b) {
        sum += i64::from(*x) * i64::from(*y);
    }
    sum
}

// The sum of a[k]², exact, over the first 2^32 elements at most.
pub fn sum_sq_i16(a: &[i16]) -> i64
    ensures { result ≡ dot_z (take max_terms a.now) a.now }
{
    dot_i16(a, a)
}
