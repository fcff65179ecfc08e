// The first significant peak of the summed correlations (vitals.rs, `estimate`).
ghost use Rattle.std.specs.Prelude.{◌≡◌, ◌-◌, ◌≤◌, nat_abs};
ghost use Rattle.vitals.specs.Peak as spec;
ghost use Rattle.vitals.specs.Peak.{is_peak, peak_or, floor_of, best_lag};
ghost use Rattle.vitals.specs.Steps.{most_summed};

use crate::steps::summed::{LagSums, Summed};

// What a peak has to reach.
fn floor_of(global: i32) -> i32
    requires { nat_abs global ≤ most_summed }
    ensures { result ≡ floor_of global }
{
    if global > 0 {
        global - global * 15 / 100
    } else {
        global
    }
}

impl<const ROOM: usize> LagSums<ROOM> {
    // Whether the value at `lag` reaches the floor and both its neighbours.
    fn is_peak(&self, lag: usize, floor: i32) -> bool
        requires { (1 ≤ lag) × (lag ≤ self.now.lags.hi) }
        ensures { result ≡ is_peak self.now.by_lag floor lag }
    {
        let value = self.by_lag[lag];
        floor <= value && self.by_lag[lag - 1] <= value && self.by_lag[lag + 1] <= value
    }

    // The band's lag from 2 on of the highest value, the lowest such lag.
    fn highest(&self) -> usize
        requires { 2 ≤ self.now.lags.hi }
        ensures { (result ≡ spec.highest self.now.by_lag (self.now.lags.hi - 2)) × (2 ≤ result) × (result ≤ self.now.lags.hi) }
    {
        let mut best = 2;
        for lag in 3..self.lags.hi + 1 {
            if self.by_lag[best] < self.by_lag[lag] {
                best = lag;
            }
        }
        best
    }

    // The band's first peak from lag 2 on that reaches the floor, or `top` where there is none.
    fn first_peak(&self, floor: i32, top: usize) -> usize
        requires { (2 ≤ top) × (top ≤ self.now.lags.hi) }
        ensures { (result ≡ peak_or self.now.by_lag self.now.lags.hi floor top) × (2 ≤ result) × (result ≤ self.now.lags.hi) }
    {
        let mut lag: usize = 2;
        let best = loop {
            if lag > self.lags.hi {
                break top;
            }
            if self.is_peak(lag, floor) {
                break lag;
            }
            lag = lag + 1;
        };
        best
    }

    // The lag that the rate is read from.
    pub fn best_lag(&self) -> usize
        requires { 2 ≤ self.now.lags.hi }
        ensures { (result ≡ best_lag self.now.by_lag self.now.lags.hi) × (2 ≤ result) × (result ≤ self.now.lags.hi) }
    {
        let top = self.highest();
        self.first_peak(floor_of(self.by_lag[top]), top)
    }
}

impl Summed {
    // The lag that the rate is read from.
    pub fn best_lag(&self) -> usize
        ensures { (result ≡ best_lag self.now.by_lag self.now.lags.hi) × (2 ≤ result) × (result ≤ self.now.lags.hi) }
    {
        self.lag_sums().best_lag()
    }
}
