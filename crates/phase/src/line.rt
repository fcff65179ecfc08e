// The line taken off a frame's angles (phase.rs, `CsiFrame::phases`), in two walks over the angles.
ghost use Rattle.std.specs.Prelude.{◌≡◌, ◌++◌, ◌+◌, ◌-◌, ◌*◌, ◌≤◌, ◌<◌, pos, nat_abs, ◌+ℤ◌, ◌-ℤ◌, length, replicate};
ghost use Rattle.num.specs.Wrap.{wrap16};
ghost use Rattle.csi.specs.Layout.{max_subcarriers};
ghost use Rattle.phase.specs.Line.{unwrapped, sum_k, denominator, slope_of, intercept_of, residual_of, residuals, phases_of, arc, place_most, slope_most, intercept_most, SumsOf};

use csi::MAX_SUBCARRIERS;

// 1 with sixteen fractional bits.
const ONE: i64 = 65536;

// Where a walk is, and the angle that it is at. The place is an i64, since a walk may leave the circle.
#[derive(Clone, Copy)]
struct Walk {
    place: i64,
    angle: i16,
}

impl Walk {
    // Before the first angle.
    const START: Walk = Walk { place: 0, angle: 0 };

    // By the shortest arc to the next angle.
    fn on(self, angle: i16) -> Self
        requires { nat_abs self.place ≤ place_most }
        ensures { (result.place ≡ self.place +ℤ wrap16 (angle -ℤ self.angle)) × (result.angle ≡ angle) }
    {
        Walk {
            place: self.place + i64::from(angle.wrapping_sub(self.angle)),
            angle,
        }
    }
}

// The sums of u[k] and of k·u[k], where u is the walk over n angles.
#[derive(Clone, Copy)]
struct LineSums {
    n: usize,
    su: i64,
    sku: i64,
    ghost enough: { 2 ≤ n },
    ghost few: { n ≤ max_subcarriers },
    ghost su_small: { nat_abs su ≤ arc * n * n },
    ghost sku_small: { nat_abs sku ≤ max_subcarriers * (arc * n * n) },
}

impl LineSums {
    fn of(angles: &[i16]) -> Self
        requires { (2 ≤ length angles.now) × (length angles.now ≤ max_subcarriers) }
        ensures { (result.n ≡ length angles.now) × SumsOf (unwrapped angles.now) (length angles.now) result.su result.sku }
    {
        let mut su = 0;
        let mut sku = 0;
        let mut walk = Walk::START;
        for (k, &angle) in angles.iter().enumerate() {
            walk = walk.on(angle);
            su += walk.place;
            sku += k as i64 * walk.place;
        }
        LineSums {
            n: angles.len(),
            su,
            sku,
        }
    }

    // 0 + 1 + .. + (n - 1).
    fn sum_k(self) -> i64
        ensures { result ≡ pos (sum_k self.n) }
    {
        (self.n * (self.n - 1) / 2) as i64
    }

    // n·Σk² - (Σk)², above 0.
    fn den(self) -> i64
        ensures { result ≡ pos (denominator self.n) }
    {
        let n = self.n;
        let sk = n * (n - 1) / 2;
        let skk = (n - 1) * n * (2 * n - 1) / 6;
        (n * skk - sk * sk) as i64
    }

    // The slope of the least-squares line, with sixteen fractional bits.
    fn slope(self) -> i64
        ensures { (result ≡ slope_of self.n self.su self.sku) × (nat_abs result ≤ slope_most) }
    {
        let nn = self.n as i64;
        ((nn * self.sku - self.sum_k() * self.su) * ONE) / self.den()
    }

    // The line.
    fn line(self) -> Line
        ensures { (result.slope ≡ slope_of self.n self.su self.sku) × (result.icpt ≡ intercept_of self.n self.su result.slope) }
    {
        let slope = self.slope();
        let icpt = (self.su * ONE - slope * self.sum_k()) / self.n as i64;
        Line { slope, icpt }
    }
}

// The slope and the intercept of a line, with sixteen fractional bits.
#[derive(Clone, Copy)]
struct Line {
    slope: i64,
    icpt: i64,
    ghost slope_small: { nat_abs slope ≤ slope_most },
    ghost icpt_small: { nat_abs icpt ≤ intercept_most },
}

impl Line {
    // What the line leaves of entry k, onto the circle. The shift rounds down.
    fn residual(self, k: usize, u: i64) -> i16
        requires { (k < max_subcarriers) × (nat_abs u ≤ place_most) }
        ensures { result ≡ residual_of self.slope self.icpt k u }
    {
        num::wrap_i16((u * ONE - self.slope * k as i64 - self.icpt) >> 16)
    }

    // What the line leaves of the walk over some angles; 0 behind them.
    fn taken_off(self, angles: &[i16]) -> [i16; MAX_SUBCARRIERS]
        requires { length angles.now ≤ max_subcarriers }
        ensures { result ≡ residuals self.slope self.icpt 0 (unwrapped angles.now) ++ replicate (max_subcarriers - length angles.now) (pos 0) }
    {
        let mut out = [0i16; MAX_SUBCARRIERS];
        let mut walk = Walk::START;
        for (k, &angle) in angles.iter().enumerate() {
            walk = walk.on(angle);
            out[k] = self.residual(k, walk.place);
        }
        out
    }
}

// The phases of angles: unwrapped, and their least-squares line taken off; 0 behind them.
pub(crate) fn line_off(angles: &[i16]) -> [i16; MAX_SUBCARRIERS]
    requires { (2 ≤ length angles.now) × (length angles.now ≤ max_subcarriers) }
    ensures { result ≡ phases_of angles.now ++ replicate (max_subcarriers - length angles.now) (pos 0) }
{
    LineSums::of(angles).line().taken_off(angles)
}
