// The parabola through a peak, the rate, and how sure it is (vitals.rs, `estimate`).
ghost use Rattle.std.specs.Prelude.{◌≡◌, ◌+◌, ◌-◌, ◌*◌, ◌≤◌, ◌<◌, pos, nat_abs, ◌-ℤ◌, ◌*ℤ◌};
ghost use Rattle.std.specs.Int.Signed.{quot_z};
ghost use Rattle.num.specs.Limits.{max_subcarriers};
ghost use Rattle.vitals.specs.Rate.{bend, vertex, bpm_of, confidence_of, refined, accepted_at};
ghost use Rattle.vitals.specs.Steps.{most_summed};

use crate::band::Lags;

// How the curve through three values bends.
fn bend_of(a: i32, b: i32, c: i32) -> i32
    requires { (nat_abs a ≤ most_summed) × (nat_abs b ≤ most_summed) × (nat_abs c ≤ most_summed) }
    ensures { (result ≡ bend a b c) × (nat_abs result ≤ 4 * most_summed) }
{
    a - 2 * b + c
}

// (a - c) · 8 / d, for a negative d.
fn lean(a: i32, c: i32, d: i32) -> i32
    requires { (nat_abs a ≤ most_summed) × (nat_abs c ≤ most_summed) × (1 ≤ nat_abs d) }
    ensures { result ≡ quot_z ((a -ℤ c) *ℤ pos 8) d }
{
    (a - c) * 8 / d
}

// Where the top of the parabola through three values lies, in sixteenths from the middle one.
pub fn delta_x16(a: i32, b: i32, c: i32) -> i32
    requires { (nat_abs a ≤ most_summed) × (nat_abs b ≤ most_summed) × (nat_abs c ≤ most_summed) }
    ensures { (result ≡ vertex a b c) × (nat_abs result ≤ 8) }
{
    let d = bend_of(a, b, c);
    if d < 0 { lean(a, c, d).clamp(-8, 8) } else { 0 }
}

// The lag in sixteenths, moved to the top of the parabola.
pub fn refined_lag(best: usize, delta: i32) -> u32
    requires { (best ≤ 127) × (nat_abs delta ≤ 8) }
    ensures { (result ≡ refined best delta) × (16 ≤ result) × (result ≤ 2048) }
{
    ((best as i32) * 16 + delta).max(16) as u32
}

// Ten times the rate per minute.
pub fn bpm_x10(rate: u32, lag_x16: u32) -> u16
    requires { (rate ≤ 1000) × (1 ≤ lag_x16) × (lag_x16 ≤ 65536) }
    ensures { result ≡ bpm_of rate lag_x16 }
{
    ((9600 * rate + lag_x16 / 2) / lag_x16).min(65535) as u16
}

// The peak's height for each column that was used, in permille.
pub fn confidence_of(peak: i32, used: usize) -> u16
    requires { (nat_abs peak ≤ most_summed) × (1 ≤ used) × (used ≤ max_subcarriers) }
    ensures { result ≡ confidence_of peak used }
{
    (peak / (used as i32)).clamp(0, 1000) as u16
}

// Strictly inside the band, and sure enough.
pub fn is_accepted(lags: Lags, best: usize, confidence: u16, accept: u16) -> bool
    ensures { result ≡ accepted_at lags.lo lags.hi best confidence accept }
{
    lags.lo < best && best < lags.hi && accept <= confidence
}
