// The estimator of breathing and heart rate (vitals.rs, `VitalsEstimator`): frames into blocks, blocks into a window, the
// rhythm of the window. It stands over lent memory: n rows of block means.
#![tactic(auto)]

ghost use Rattle.std.specs.Prelude.{◌≡◌};
ghost use Rattle.refusal.specs.Refusal.{answered_number};
ghost use Rattle.estimator.specs.Calls.{new_state, new_refusal, reset_refusal, ring_check, state_check, new_answer, reset_answer, Tried};
ghost use Rattle.estimator.specs.Promises.{kept};

use refusal::Refusal;
use steps::Plan;
use vitals::config::VitalsConfig;
use window::COLUMNS;

mod block;
mod column;
mod estimate;
pub mod steps;
mod view;

// An estimate: ten times the rate per minute, the confidence in permille, the lag in sixteenths of a block, whether it is
// sure enough and inside the band, and when the window ended.
#[repr(C)]
#[derive(Clone, Copy, Debug, PartialEq, Eq)]
pub struct Vitals {
    pub bpm_x10: u16,
    pub confidence: u16,
    pub lag_x16: u32,
    pub accepted: bool,
    pub at: u64,
}

// Where the estimator stands: the columns in use, the blocks since the last restart, the slot to write next, the frames in
// the open block, the blocks since the last estimate.
#[repr(C)]
#[derive(Clone, Copy, Debug, PartialEq, Eq)]
pub struct Progress {
    pub count: usize,
    pub filled: usize,
    pub next: usize,
    pub acc_n: u32,
    pub since_update: u32,
}

// The progress and the open block's totals.
#[repr(C)]
#[derive(Clone, Copy, Debug, PartialEq, Eq)]
pub struct VitalsEstimator {
    pub progress: Progress,
    pub acc: [u32; COLUMNS],
}

// Settings in range, and memory of the right length for them.
#[tactic(auto, unfolding(crate::specs::State::legal))]
fn check_ring(rows: &[u8], n: usize, config: VitalsConfig) -> Result<(), Refusal>
    ensures { result ≡ ring_check config n rows.now }
{
    if !steps::is_legal(config, n) {
        return Err(Refusal::Settings);
    }
    if rows.len() != 2 * (n * COLUMNS) {
        return Err(Refusal::Memory);
    }
    Ok(())
}

impl VitalsEstimator {
    // Nothing remembered: a new estimator's state, for any settings.
    pub fn blank() -> VitalsEstimator
        ensures { result ≡ new_state }
    {
        VitalsEstimator {
            progress: steps::restarted(0),
            acc: [0; COLUMNS],
        }
    }

    // A new estimator of n blocks over lent rows, whose content is free.
    pub fn new(rows: &[u8], n: usize, config: VitalsConfig) -> Result<VitalsEstimator, Refusal>
        ensures answer { result ≡ new_answer config n rows.now }
        ensures number { answered_number result ≡ new_refusal config n rows.now }
    {
        check_ring(rows, n, config).and(Ok(Self::blank()))
    }

    // The settings and the memory, then the state.
    fn check(&self, rows: &[u8], n: usize, config: VitalsConfig) -> Result<(), Refusal>
        ensures { result ≡ state_check config n self.now rows.now }
    {
        check_ring(rows, n, config)?;
        if steps::is_valid(n, config, self) {
            Ok(())
        } else {
            Err(Refusal::Memory)
        }
    }

    // One frame: its first `count` amplitudes, taken at `time`, and the estimate where one is due. A frame of count 0
    // changes nothing. The count stands beside the array, as one above its length is refused, which no slice of it has.
    pub fn push(
        &mut self,
        rows: &mut [u8],
        n: usize,
        config: VitalsConfig,
        amplitude: [u16; COLUMNS],
        count: usize,
        time: u64,
    ) -> Result<Option<Vitals>, Refusal>
        ensures { Tried config n time self.old rows.old amplitude count result self.new rows.new }
    {
        self.check(rows, n, config)?;
        if count > COLUMNS {
            return Err(Refusal::Count);
        }
        let plan = Plan { n, config };
        Ok(steps::push(self, rows, plan, &amplitude[..count], time))
    }

    // A state as new: the window and the open block are forgotten, and the rows are free.
    pub fn reset(&mut self, rows: &[u8], n: usize, config: VitalsConfig) -> Result<(), Refusal>
        ensures answer { result ≡ state_check config n self.old rows.now }
        ensures state { self.new ≡ kept self.old (reset_answer config n self.old rows.now) }
        ensures number { answered_number result ≡ reset_refusal config n self.old rows.now }
    {
        self.check(rows, n, config)?;
        *self = Self::blank();
        Ok(())
    }
}
