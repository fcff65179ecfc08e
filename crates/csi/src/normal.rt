// Amplitudes in 1,024ths of their mean: a·1024·n/Σa. The quotient 1024·n/Σa is taken once, in 2^40ths and rounded up; its products
// with the amplitudes have the same whole parts as the quotients.
ghost use Rattle.std.specs.Prelude.{◌≡◌, ◌+◌, ◌*◌, ◌/◌, ◌^◌, min, ◌≤◌, ◌<◌, map, length};
ghost use Rattle.num.specs.Sum.{total};
ghost use Rattle.csi.specs.Features.{scale, describe};
ghost use Rattle.csi.specs.Layout.{max_subcarriers};

use crate::{Features, MAX_SUBCARRIERS};

// What stands for the mean, and the largest amplitude.
const UNIT: u64 = 1024;

const MAX_AMPLITUDE: u64 = 65535;

// 2^40, which is above 65,535 · 65,535 · 64.
const ONE: u64 = 1099511627776;

// 1024·n/total in 2^40ths, rounded up.
fn ratio(n: u64, total: u64) -> u64
    requires { (n ≤ max_subcarriers) × (1 ≤ total) }
    ensures { result ≡ 1024 * n * 2 ^ 40 / total + 1 }
{
    UNIT * n * ONE / total + 1
}

// The whole part of a product with a ratio, at most 65,535.
fn scaled(a: u16, ratio: u64) -> u16
    requires { a * ratio < 2 ^ 64 }
    ensures { result ≡ min 65535 (a * ratio / 2 ^ 40) }
{
    (u64::from(a) * ratio / ONE).min(MAX_AMPLITUDE) as u16
}

// The amplitudes, whose sum is `sum`, in 1,024ths of their mean.
pub(crate) fn divided(amplitudes: &[u16], sum: u32) -> Features
    requires { (1 ≤ length amplitudes.now) × (length amplitudes.now ≤ max_subcarriers) × (1 ≤ sum) × (sum ≡ total amplitudes.now) }
    ensures { result ≡ describe (map (scale (length amplitudes.now) sum) amplitudes.now) }
{
    let n = amplitudes.len();
    let factor = ratio(n as u64, u64::from(sum));
    let mut out = [0u16; MAX_SUBCARRIERS];
    for (k, &a) in amplitudes.iter().enumerate() {
        out[k] = scaled(a, factor);
    }
    crate::moments::described(out, n)
}
