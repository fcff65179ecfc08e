// The estimate over a full window, when one is due (vitals.rs, `push` and `estimate`).
ghost use Rattle.std.specs.Prelude.{◌≡◌, true, ◌+◌, ◌≤◌, ◌<◌, length};
ghost use Rattle.window.specs.Window.{columns, ring_rows};
ghost use Rattle.vitals.specs.Band.{usable};
ghost use Rattle.vitals.specs.Peak.{best_lag};
ghost use Rattle.estimator.specs.Estimate.{empty_at, read_at, rhythm_of, columns_of, estimate_of};
ghost use Rattle.estimator.specs.Estimator.{due_at, or_one};
ghost use Rattle.estimator.specs.Steps.{blocks_in};
ghost use Rattle.estimator.specs.State.{ring_length, judged_at, judged_by};

use crate::steps::{Plan, at_least_one};
use crate::view::View;
use crate::{Progress, Vitals, VitalsEstimator};
use vitals::band::Lags;
use vitals::config::VitalsConfig;
use vitals::steps::summed::{LAG_ROOM, LagSums, MAX_LAGS};

// No rate, no confidence.
fn empty(time: u64) -> Vitals
    ensures { result ≡ empty_at time }
{
    Vitals {
        bpm_x10: 0,
        confidence: 0,
        lag_x16: 0,
        accepted: false,
        at: time,
    }
}

// What is read from the summed correlations.
fn read_off(summed: &LagSums<LAG_ROOM>, config: VitalsConfig, time: u64) -> Vitals
    requires { (2 ≤ summed.now.lags.hi) × (1 ≤ summed.now.used) × (config.rate_hz ≤ 1000) }
    ensures { result ≡ read_at config time summed.now.lags.lo summed.now.lags.hi summed.now.used summed.now.by_lag (best_lag summed.now.by_lag summed.now.lags.hi) }
{
    let best = summed.best_lag();
    let top = summed.by_lag[best];
    let confidence = vitals::steps::rate::confidence_of(top, summed.used);
    let delta = vitals::steps::rate::delta_x16(
        summed.by_lag[best - 1],
        top,
        summed.by_lag[best + 1],
    );
    let lag = vitals::steps::rate::refined_lag(best, delta);
    Vitals {
        bpm_x10: vitals::steps::rate::bpm_x10(config.rate_hz, lag),
        confidence,
        lag_x16: lag,
        accepted: vitals::steps::rate::is_accepted(
            summed.lags,
            best,
            confidence,
            config.accept_permille,
        ),
        at: time,
    }
}

// The estimate over the columns.
fn over_columns(view: View<'_>, config: VitalsConfig, time: u64, lags: Lags) -> Vitals
    requires { (2 ≤ lags.hi) × (lags.hi ≤ 127) × (lags.hi + 1 < view.n) × (config.rate_hz ≤ 1000) }
    ensures { result ≡ rhythm_of config time lags.lo lags.hi (columns_of config.highpass (blocks_in view.entry)) }
{
    let summed = crate::column::sum_columns(view, config.highpass as usize, lags);
    if summed.used == 0 {
        return empty(time);
    }
    read_off(&summed, config, time)
}

// The estimate over a full window.
fn estimate(view: View<'_>, config: VitalsConfig, time: u64) -> Vitals
    requires { (4 ≤ view.n) × (usable config.band config.rate_hz ≡ true) }
    ensures { result ≡ estimate_of config time (blocks_in view.entry) }
{
    let lags = vitals::steps::lags(config.band, config.rate_hz);
    let lo = lags.lo;
    let hi = lags.hi.min(view.n - 2);
    if hi <= lo || MAX_LAGS < hi + 1 {
        return empty(time);
    }
    over_columns(view, config, time, Lags { lo, hi })
}

// The window is full, and enough blocks have come since the last estimate.
fn is_due(plan: Plan, progress: Progress) -> bool
    ensures { result ≡ due_at (or_one plan.config.update_every) plan.n progress.filled progress.since_update }
{
    plan.n <= progress.filled && at_least_one(plan.config.update_every) <= progress.since_update
}

impl VitalsEstimator {
    // An estimate, if one is due after a block.
    pub(crate) fn judge(&mut self, rows: &[u8], plan: Plan, time: u64) -> Option<Vitals>
        requires { (length rows.now ≡ ring_length plan.n) × (self.old.progress.next < plan.n) × (self.old.progress.count ≤ columns) }
        ensures { (self.new.progress ≡ judged_at plan.config plan.n self.old.progress) × (self.new.acc ≡ self.old.acc) × (result ≡ judged_by plan.config plan.n time self.old.progress (ring_rows plan.n columns rows.now)) }
    {
        if !is_due(plan, self.progress) {
            return None;
        }
        self.progress.since_update = 0;
        let view = View {
            rows,
            n: plan.n,
            next: self.progress.next,
            count: self.progress.count,
        };
        Some(estimate(view, plan.config, time))
    }
}
