// The room unit's memory: what stands at which byte (docs/LAYOUT.md).
#![tactic(auto)]

use estimator::VitalsEstimator;
use fall_words::Words;
use fingerprint::Baseline;
use sliding::Held;
use window::COLUMNS;

mod arrays;
mod fields;
pub mod steps;

// How many bytes the settings are, and each of the small states.
pub const SETTINGS_LEN: usize = 118;

pub(crate) const DETECTOR_LEN: usize = 18;

pub(crate) const PROGRESS_LEN: usize = 9;

pub(crate) const BASELINE_LEN: usize = 10;

pub(crate) const FALL_LEN: usize = 19;

// Where the parts of the header stand, each behind the one before it, and how long it is: settings, tag, the small states, then one number a column.
pub(crate) const TAG_AT: usize = SETTINGS_LEN;

pub(crate) const PRESENCE_AT: usize = TAG_AT + 1;

pub(crate) const PHASE_AT: usize = PRESENCE_AT + DETECTOR_LEN;

pub(crate) const BREATHING_AT: usize = PHASE_AT + DETECTOR_LEN;

pub(crate) const HEART_AT: usize = BREATHING_AT + PROGRESS_LEN;

pub(crate) const BASELINE_AT: usize = HEART_AT + PROGRESS_LEN;

pub(crate) const FALL_AT: usize = BASELINE_AT + BASELINE_LEN;

pub(crate) const SUM_AT: usize = FALL_AT + FALL_LEN;

pub(crate) const SUMSQ_AT: usize = SUM_AT + 4 * COLUMNS;

pub(crate) const COS_AT: usize = SUMSQ_AT + 8 * COLUMNS;

pub(crate) const SIN_AT: usize = COS_AT + 4 * COLUMNS;

pub(crate) const BREATHING_ACC_AT: usize = SIN_AT + 4 * COLUMNS;

pub(crate) const HEART_ACC_AT: usize = BREATHING_ACC_AT + 4 * COLUMNS;

pub const HEADER_LEN: usize = HEART_ACC_AT + 4 * COLUMNS;

// Where a detector's `present` stands in its bytes.
pub(crate) const PRESENT_AT: usize = 9;

// What the unit holds beside its settings and its rows. The fall machine is in words.
#[derive(Clone, Copy)]
pub struct RoomState {
    pub tag: u8,
    pub presence: Held<presence::Sums>,
    pub phase: Held<phase_detector::Sums>,
    pub breathing: VitalsEstimator,
    pub heart: VitalsEstimator,
    pub baseline: Baseline,
    pub fall: Words,
}
