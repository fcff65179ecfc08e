// The steps of presence: no sums, and the wander of a column. The caller has tested settings, state and memory.
ghost use Rattle.std.specs.Prelude.{◌≡◌};
ghost use Rattle.num.specs.Root.{root};
ghost use Rattle.num.specs.Sum.{square};
ghost use Rattle.presence.specs.Wander.{column_wander, ColumnRange};
ghost use Rattle.presence.specs.Presence.{no_sums};

use crate::Sums;
use window::COLUMNS;
use window::steps::share::Rows;

// The sums of no rows, and of rows of zeros.
pub fn no_sums() -> Sums
    ensures { result ≡ no_sums }
{
    Sums {
        sum: [0u32; COLUMNS],
        sumsq: [0u64; COLUMNS],
    }
}

pub(crate) fn square(x: u16) -> u64
    ensures { result ≡ square x }
{
    let x = u64::from(x);
    x * x
}

// The root of the scaled variance: that of 32 bits where they hold it.
fn scaled_root(scaled: u64) -> u64
    ensures { result ≡ root scaled }
{
    match u32::try_from(scaled) {
        Ok(small) => u64::from(num::isqrt(small)),
        Err(_) => num::isqrt64(scaled),
    }
}

// The wander of one column, permille, from its sum and square sum.
pub(crate) fn column_wander(rows: Rows, sum: u32, sumsq: u64) -> u32
    requires { ColumnRange rows.w sum sumsq }
    ensures { result ≡ column_wander rows.w sum sumsq }
{
    let s = u64::from(sum);
    let mean = rows.share(s);
    if mean == 0 {
        return 0;
    }
    let var_w2 = (rows.w * sumsq).saturating_sub(s * s);
    let std16 = rows.share(scaled_root(256 * var_w2));
    (std16 as u32) * 1000 / ((mean as u32) * 16)
}
