// The columns' correlations, summed (vitals.rs, `estimate`).
ghost use Rattle.std.specs.Prelude.{◌≡◌, ◌+◌, ◌*◌, ◌≤◌, ◌<◌, length};
ghost use Rattle.num.specs.Limits.{max_subcarriers};
ghost use Rattle.vitals.specs.Correlation as spec;
ghost use Rattle.vitals.specs.Steps.{Within, Added, Joined};

use crate::band::Lags;
use crate::steps::energy::Energy;
use crate::steps::padded::Padded;

// The most lags that an estimate or a `Summed` has: 1 to hi + 1.
pub const MAX_LAGS: usize = 128;

// Room for these sums, by lag.
pub const LAG_ROOM: usize = MAX_LAGS + 1;

// The sums for the lags from 1 to hi + 1, the band's lags, and how many columns are in the sums. There is room for the lags below ROOM.
#[derive(Drop)]
pub struct LagSums<const ROOM: usize> {
    pub by_lag: [i32; ROOM],
    pub lags: Lags,
    pub used: usize,
    ghost room: { lags.hi + 1 < ROOM },
    ghost few: { used ≤ max_subcarriers },
    ghost small: { Within (2000 * used) by_lag },
}

impl<const ROOM: usize> LagSums<ROOM> {
    // The sums of no columns.
    pub fn new(lags: Lags) -> LagSums<ROOM>
        requires { lags.hi + 1 < ROOM }
        ensures { (result.lags ≡ lags) × (result.used ≡ 0) }
    {
        LagSums {
            by_lag: [0; ROOM],
            lags,
            used: 0,
        }
    }

    // The correlations of a series with energy.
    fn add_lags(&mut self, series: &Padded, e: Energy)
        requires { (self.old.lags.hi + 1 < length series.now) × (self.old.used < max_subcarriers) × (e.n ≡ length series.now) × (e.sum ≡ spec.energy series.now) }
        ensures { Added series.now (self.old.lags.hi + 1) self.old.by_lag self.new.by_lag × (self.new.used ≡ self.old.used + 1) × (self.new.lags ≡ self.old.lags) }
    {
        self.used += 1;
        for lag in 1..self.lags.hi + 2 {
            self.by_lag[lag] += series.correlation(lag, e);
        }
    }

    // The correlations of a series: one without energy is left out.
    pub fn add(&mut self, series: &Padded)
        requires { (self.old.lags.hi + 1 < length series.now) × (self.old.used < max_subcarriers) }
        ensures { Joined series.now (self.old.lags.hi + 1) self.old.used self.old.by_lag self.new.used self.new.by_lag × (self.new.lags ≡ self.old.lags) }
    {
        let energy = series.energy();
        if energy > 0 {
            self.add_lags(series, Energy::new(energy, series.n));
        }
    }
}

// The same sums for a band whose last lag is from 2 to 127, so that `best_lag` asks nothing.
#[derive(Drop)]
pub struct Summed {
    pub by_lag: [i32; LAG_ROOM],
    pub lags: Lags,
    pub used: usize,
    ghost long: { 2 ≤ lags.hi },
    ghost room: { lags.hi ≤ 127 },
    ghost few: { used ≤ max_subcarriers },
    ghost small: { Within (2000 * used) by_lag },
}

impl Summed {
    // These sums, where the band reaches lag 2.
    fn of(sums: LagSums<LAG_ROOM>) -> Summed
        requires { 2 ≤ sums.lags.hi }
        ensures { (result.by_lag ≡ sums.by_lag) × (result.lags ≡ sums.lags) × (result.used ≡ sums.used) }
    {
        let by_lag = sums.by_lag;
        Summed {
            by_lag,
            lags: sums.lags,
            used: sums.used,
        }
    }

    // The same as sums of any band.
    pub(crate) fn lag_sums(&self) -> LagSums<LAG_ROOM>
        ensures { (result.by_lag ≡ self.now.by_lag) × (result.lags ≡ self.now.lags) × (result.used ≡ self.now.used) }
    {
        let by_lag = self.by_lag;
        LagSums {
            by_lag,
            lags: self.lags,
            used: self.used,
        }
    }

    // The sums of no columns.
    pub fn new(lags: Lags) -> Summed
        requires { (2 ≤ lags.hi) × (lags.hi ≤ 127) }
        ensures { (result.lags ≡ lags) × (result.used ≡ 0) }
    {
        Summed::of(LagSums::new(lags))
    }

    // The correlations of a series: one without energy is left out.
    pub fn add(&mut self, series: &Padded)
        requires { (self.old.lags.hi + 1 < length series.now) × (self.old.used < max_subcarriers) }
        ensures { Joined series.now (self.old.lags.hi + 1) self.old.used self.old.by_lag self.new.used self.new.by_lag × (self.new.lags ≡ self.old.lags) }
    {
        let mut sums = self.lag_sums();
        sums.add(series);
        *self = Summed::of(sums);
    }
}

#[cfg(test)]
mod tests {
    use super::*;

    // Beats 20, 50 and 70 samples apart: lag 70 has the highest sum, and lag 20 reaches 85 percent of it. A series of zeros is left out.
    #[test]
    fn first_of_three_lags(rt: HostRuntime) {
        let mut series = Padded::zeros(512);
        series.set(10, 1000);
        series.set(30, 1000);
        series.set(80, 1000);
        let mut sums = Summed::new(Lags { lo: 2, hi: 127 });
        sums.add(&series);
        assert_eq!(rt; sums.used, 1);
        sums.add(&Padded::zeros(512));
        assert_eq!(rt; sums.used, 1);
        assert_eq!(rt;
            (sums.by_lag[20], sums.by_lag[50], sums.by_lag[70]),
            (346, 369, 386)
        );
        assert_eq!(rt; sums.best_lag(), 20);
    }
}
