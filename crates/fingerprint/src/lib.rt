// The room's fingerprint: how far a frame's variance is from a calibrated mean (fingerprint.rs).
#![tactic(auto)]

ghost use Rattle.std.specs.Prelude.{◌≡◌};
ghost use Rattle.std.specs.Result.{result_map_both};
ghost use Rattle.refusal.specs.Refusal.{answered_number};
ghost use Rattle.fingerprint.specs.Baseline.{good, fresh, range_check, calibrate_refusal, mean_refusal, distance_refusal, calibrated_of, mean_answer, distance_answer};

use csi::Features;
use refusal::Refusal;
use steps::Sound;

pub mod steps;

// The most frames that are calibrated.
pub const MAX_FRAMES: u32 = 65535;
// The largest variance.
pub const MAX_VARIANCE: u64 = 4294967295;

// The sum of the calibrated variances and their number.
#[repr(C)]
#[derive(Clone, Copy, Debug, PartialEq, Eq)]
pub struct Baseline {
    pub sum: u64,
    pub frames: u32,
}

impl Baseline {
    // Nothing learned yet.
    pub fn new() -> Self
        ensures { result ≡ fresh }
    {
        Self { sum: 0, frames: 0 }
    }

    // Whether a baseline is in range: at most 65,535 frames, and a sum that so many variances can have.
    #[tactic(auto, unfolding(crate::specs::Baseline::good))]
    pub fn is_good(self) -> bool
        ensures { result ≡ good self }
    {
        if MAX_FRAMES < self.frames {
            return false;
        }
        self.sum <= u64::from(self.frames) * MAX_VARIANCE
    }

    // The same baseline, known to be in range.
    fn check(self) -> Result<Sound, Refusal>
        ensures { result_map_both (λ b. b.baseline) (λ e. e) result ≡ range_check self }
    {
        if self.is_good() {
            Ok(Sound { baseline: self })
        } else {
            Err(Refusal::Memory)
        }
    }

    // One frame more. Refused out of range, with a count above 64, and when full. A frame of count 0 is ignored.
    #[tactic(auto, unfolding(crate::specs::Baseline::calibrated_of))]
    pub fn calibrate(self, features: Features) -> Result<Self, Refusal>
        ensures answer { result ≡ calibrated_of self features }
        ensures number { answered_number result ≡ calibrate_refusal self features }
    {
        let judged = self.check()?;
        features.check()?;
        if features.count == 0 {
            return Ok(self);
        }
        if self.frames == MAX_FRAMES {
            return Err(Refusal::Full);
        }
        Ok(judged.calibrate(features.variance).baseline)
    }

    // The mean variance, 0 until calibrated. Refused out of range.
    #[tactic(auto, unfolding(crate::specs::Baseline::mean_answer))]
    pub fn mean(self) -> Result<u32, Refusal>
        ensures answer { result ≡ mean_answer self }
        ensures number { answered_number result ≡ mean_refusal self }
    {
        Ok(self.check()?.mean())
    }

    // How far a frame is from the baseline, in permille; 0 without a mean. Refused out of range, and with a count above 64.
    #[tactic(auto, unfolding(crate::specs::Baseline::distance_answer))]
    pub fn distance(self, features: Features) -> Result<u32, Refusal>
        ensures answer { result ≡ distance_answer self features }
        ensures number { answered_number result ≡ distance_refusal self features }
    {
        let sound = self.check()?;
        features.check()?;
        if features.count == 0 {
            return Ok(0);
        }
        Ok(sound.distance(features.variance))
    }
}
