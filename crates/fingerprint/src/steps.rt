// Calls for the crates above, which have judged the baseline once.
ghost use Rattle.std.specs.Prelude.{◌≡◌, true, ◌≤◌, ◌<◌};
ghost use Rattle.fingerprint.specs.Baseline.{max_frames, good, mean_of, fed, distance_from};

use crate::Baseline;

// The largest distance.
const MAX_DISTANCE: u64 = 65535;

// The distance of a variance from a mean that is not 0, in permille of the mean, at most 65,535.
#[tactic(auto, unfolding(crate::specs::Baseline::distance_from))]
fn permille(variance: u32, mean: u32) -> u32
    requires { 1 ≤ mean }
    ensures { result ≡ distance_from mean variance }
{
    let v = u64::from(variance.abs_diff(mean)) * 1000 / u64::from(mean);
    v.min(MAX_DISTANCE) as u32
}

// A baseline in range.
#[derive(Clone, Copy)]
pub struct Sound {
    pub baseline: Baseline,
    pub ghost good: { good baseline ≡ true },
}

impl Sound {
    // One variance more.
    pub fn calibrate(self, variance: u32) -> Self
        requires { self.baseline.frames < max_frames }
        ensures { result.baseline ≡ fed self.baseline variance }
    {
        let b = self.baseline;
        let baseline = Baseline {
            sum: b.sum + u64::from(variance),
            frames: b.frames + 1,
        };
        Sound { baseline }
    }

    // The mean variance, 0 until calibrated.
    #[tactic(auto, unfolding(crate::specs::Baseline::mean_of))]
    pub fn mean(self) -> u32
        ensures { result ≡ mean_of self.baseline }
    {
        let b = self.baseline;
        if b.frames == 0 {
            return 0;
        }
        (b.sum / u64::from(b.frames)) as u32
    }

    // How far a variance is from the mean, in permille; 0 without a mean.
    #[tactic(auto, unfolding(crate::specs::Baseline::distance_from))]
    pub fn distance(self, variance: u32) -> u32
        ensures { result ≡ distance_from (mean_of self.baseline) variance }
    {
        let m = self.mean();
        if m == 0 {
            return 0;
        }
        permille(variance, m)
    }
}
