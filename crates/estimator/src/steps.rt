// The estimator's steps, for a caller that has tested settings, memory and state once: the tests, a restart, one frame.
ghost use Rattle.std.specs.Prelude.{◌≡◌, true, ◌≤◌, max, length};
ghost use Rattle.window.specs.Window.{columns};
ghost use Rattle.estimator.specs.State.{legal, bounded, waiting, in_range, ring_length, restarted_at, Took};

use crate::{Progress, Vitals, VitalsEstimator};
use vitals::config::VitalsConfig;
use window::COLUMNS;

// The fewest and the most blocks of a window, and the most frames of a block.
pub const MIN_BLOCKS: usize = 4;

pub const MAX_BLOCKS: usize = 512;

pub const MAX_DECIM: u16 = 32767;

// How many blocks a window has, and how to estimate: in range together.
#[derive(Clone, Copy)]
pub struct Plan {
    pub n: usize,
    pub config: VitalsConfig,
    ghost legal: { legal config n ≡ true },
}

// Whether the settings are in range.
#[tactic(auto, unfolding(crate::specs::State::legal))]
pub fn is_legal(config: VitalsConfig, n: usize) -> bool
    ensures { result ≡ legal config n }
{
    (MIN_BLOCKS..=MAX_BLOCKS).contains(&n)
        && config.decim <= MAX_DECIM
        && vitals::band::is_usable(config.band, config.rate_hz)
}

// A setting of 0 counts as 1.
pub(crate) fn at_least_one(x: u16) -> u32
    ensures { (result ≡ max 1 x) × (result ≤ 65535) }
{
    u32::from(x.max(1))
}

// Whether no total is above what so many frames can give.
fn totals_fit(acc: &[u32; COLUMNS], frames: u32) -> bool
    requires { frames ≤ 65535 }
    ensures { result ≡ bounded frames acc.now }
{
    let most = frames * 65535;
    acc.iter().all(|&total| total <= most)
}

// Whether the blocks since the last estimate are as many as they can be.
fn is_waiting(n: usize, config: VitalsConfig, progress: Progress) -> bool
    ensures { result ≡ waiting config n progress }
{
    if progress.filled < n {
        return progress.since_update as usize == progress.filled;
    }
    progress.since_update < at_least_one(config.update_every)
}

// Whether a state is in range.
#[tactic(auto, unfolding(crate::specs::State::in_range))]
pub fn is_valid(n: usize, config: VitalsConfig, estimator: &VitalsEstimator) -> bool
    ensures { result ≡ in_range config n estimator.now.progress estimator.now.acc }
{
    let progress = estimator.progress;
    progress.next < n
        && progress.filled <= n
        && progress.count <= COLUMNS
        && progress.acc_n < at_least_one(config.decim)
        && totals_fit(&estimator.acc, progress.acc_n)
        && is_waiting(n, config, progress)
}

// The progress of a restart: with totals that are all 0 it is a new estimator's, over rows of any content.
pub fn restarted(count: usize) -> Progress
    ensures { result ≡ restarted_at count }
{
    Progress {
        count,
        filled: 0,
        next: 0,
        acc_n: 0,
        since_update: 0,
    }
}

// One frame, taken at `time`. An empty one changes nothing.
pub fn push(
    estimator: &mut VitalsEstimator,
    rows: &mut [u8],
    plan: Plan,
    frame: &[u16],
    time: u64,
) -> Option<Vitals>
    requires rows { length rows.old ≡ ring_length plan.n }
    requires state { in_range plan.config plan.n estimator.old.progress estimator.old.acc ≡ true }
    requires few { length frame.now ≤ columns }
    ensures { Took plan.config plan.n time estimator.old rows.old frame.now result estimator.new rows.new }
{
    if frame.is_empty() {
        return None;
    }
    estimator.begin(frame.len());
    estimator.add(frame);
    if estimator.progress.acc_n < at_least_one(plan.config.decim) {
        return None;
    }
    estimator.close(rows, plan.n);
    estimator.judge(rows, plan, time)
}
