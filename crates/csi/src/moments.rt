// Features from amplitudes: their sum, mean and variance.
ghost use Rattle.std.specs.Prelude.{◌≡◌, ◌+◌, ◌-◌, ◌*◌, ◌≤◌, ◌++◌, map, length, get_or, replicate};
ghost use Rattle.csi.specs.Features.{variance_from, describe, described_as};
ghost use Rattle.csi.specs.Layout.{max_subcarriers, entries_of, Usable};
ghost use Rattle.num.specs.Sum.{total, apart, square};

use crate::{Features, Layout, MAX_SUBCARRIERS};

// The sum of some amplitudes.
#[tactic(auto, using(crate::proofs::Sums::sum_total))]
pub(crate) fn total_of(amplitudes: &[u16]) -> u32
    requires { length amplitudes.now ≤ max_subcarriers }
    ensures sum { result ≡ total amplitudes.now }
    ensures bound { result ≤ 65535 * length amplitudes.now }
{
    amplitudes.iter().map(|&a| u32::from(a)).sum()
}

// The square of an amplitude's difference from `mean`.
fn off(a: u16, mean: u16) -> u64
    ensures { (result ≡ square (apart a mean)) × (result ≤ 65535 * 65535) }
{
    let d = u64::from(a.abs_diff(mean));
    d * d
}

// The floored mean of the square differences from `mean`.
#[tactic(auto, using(crate::proofs::Sums::sum_by_total), unfolding(crate::specs::Features::variance_from))]
fn variance(amplitudes: &[u16], mean: u16) -> u32
    requires { (1 ≤ length amplitudes.now) × (length amplitudes.now ≤ max_subcarriers) }
    ensures { result ≡ variance_from mean amplitudes.now }
{
    let sum: u64 = amplitudes.iter().map(|&a| off(a, mean)).sum();
    (sum / amplitudes.len() as u64) as u32
}

// The features of the first n amplitudes.
pub(crate) fn described(amplitude: [u16; MAX_SUBCARRIERS], n: usize) -> Features
    requires { (1 ≤ n) × (n ≤ max_subcarriers) }
    ensures { result ≡ described_as amplitude n }
{
    let used = &amplitude[..n];
    let mean = (total_of(used) / n as u32) as u16;
    let variance = variance(used, mean);
    Features {
        amplitude,
        count: n as u8,
        mean,
        variance,
    }
}

// Two parts of an array, one behind the other, and 0 behind them.
fn joined(first: &[u16], second: &[u16]) -> [u16; MAX_SUBCARRIERS]
    requires { length first.now + length second.now ≤ max_subcarriers }
    ensures { result ≡ (first.now ++ second.now) ++ replicate (max_subcarriers - (length first.now + length second.now)) 0 }
{
    let mut all = [0u16; MAX_SUBCARRIERS];
    let n = first.len();
    all[..n].copy_from_slice(first);
    all[n..n + second.len()].copy_from_slice(second);
    all
}

// The features of those entries that a layout uses.
pub(crate) fn picked(every: &[u16; MAX_SUBCARRIERS], layout: Layout) -> Features
    requires { Usable layout }
    ensures { result ≡ describe (map (λ k. get_or every.now k 0) (entries_of layout)) }
{
    let first = &every[usize::from(layout.start)..usize::from(layout.end)];
    let second = &every[usize::from(layout.start2)..usize::from(layout.end2)];
    described(joined(first, second), layout.count())
}
