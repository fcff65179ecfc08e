// How much shorter than a unit the mean of unit vectors is. The caller has tested the ranges.
ghost use Rattle.std.specs.Prelude.{◌≡◌, ◌+◌, ◌*◌, ◌^◌, ◌<◌, ◌≤◌, nat_abs};
ghost use Rattle.vectors.specs.Vector.{div_round, rounded_root, missing_ppm, column_ppm};

use crate::{UNIT, UnitVector};
use window::steps::share::Rows;

// The magnitude of a component's mean over as many vectors as there are rows, rounded to the nearest.
fn mean_magnitude(rows: Rows, a: i32) -> u64
    requires { nat_abs a ≤ 16384 * rows.w }
    ensures { (result ≡ nat_abs (div_round a rows.w)) × (result ≤ 16384) }
{
    rows.share(u64::from(a.unsigned_abs()) + rows.w / 2)
}

// The root of sq, rounded to the nearest, where e is at most 1 below it.
#[tactic(auto, using(crate::proofs::Rounded::rounded, crate::proofs::Rounded::from_above))]
fn root_from(sq: u32, e: u32) -> u32
    requires { (e ≤ 16384) × (e * e < sq + e) × (sq ≤ e * e + 3 * e + 2) }
    ensures { result ≡ rounded_root sq }
{
    if e * e + e < sq { e + 1 } else { e }
}

// The root of sq, rounded to the nearest.
fn root_of(sq: u32) -> u32
    requires { sq ≤ 2 ^ 29 }
    ensures { result ≡ rounded_root sq }
{
    (num::isqrt(4 * sq) + 1) / 2
}

// The same. Less than 1/128 below a whole vector, where still rooms and walks are, one step of Newton's from 16,384 gives
// it, and no division.
#[tactic(auto, using(crate::proofs::Rounded::near_unit))]
fn rounded_root(sq: u32) -> u32
    requires { sq ≤ 2 ^ 29 }
    ensures { result ≡ rounded_root sq }
{
    match sq / 32768 {
        a @ 8065..=8192 => root_from(sq, 8192 + a),
        _ => root_of(sq),
    }
}

// What a mean vector of this squared length misses of a whole one, in parts per million: 10^6 / 2^14 is 15,625 / 256.
#[tactic(auto, unfolding(crate::specs::Vector::missing_ppm))]
fn missing_ppm(sq: u32) -> u32
    requires { sq ≤ 2 ^ 29 }
    ensures { result ≡ missing_ppm sq }
{
    UNIT.saturating_sub(rounded_root(sq)) * 15625 / 256
}

// The circular variance of an angle in each row, in parts per million, where their unit vectors add up to `sum`.
#[tactic(auto, unfolding(crate::specs::Vector::column_ppm, crate::specs::Vector::mean_square))]
pub fn column_ppm(rows: Rows, sum: UnitVector) -> u32
    requires { (nat_abs sum.cos ≤ 16384 * rows.w) × (nat_abs sum.sin ≤ 16384 * rows.w) }
    ensures { result ≡ column_ppm rows.w sum.cos sum.sin }
{
    let cos = mean_magnitude(rows, sum.cos);
    let sin = mean_magnitude(rows, sum.sin);
    missing_ppm((cos * cos + sin * sin) as u32)
}
