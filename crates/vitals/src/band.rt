// A frequency band and its lags (vitals.rs, `Band`).
ghost use Rattle.std.specs.Prelude.{◌≡◌};
ghost use Rattle.refusal.specs.Refusal.{answered_number};
ghost use Rattle.vitals.specs.Band.{usable, lags_refusal, lags_answer};

use refusal::Refusal;

// A frequency band in millihertz.
#[repr(C)]
#[derive(Clone, Copy, Debug, PartialEq, Eq)]
pub struct Band {
    pub lo_mhz: u32,
    pub hi_mhz: u32,
}

// A range of lags, both ends in it.
#[repr(C)]
#[derive(Clone, Copy, Debug, PartialEq, Eq)]
pub struct Lags {
    pub lo: usize,
    pub hi: usize,
}

// The largest rate.
pub const MAX_RATE: u32 = 1000;

// Whether the rate and both ends of the band are in range.
#[tactic(auto, unfolding(crate::specs::Band::usable))]
pub fn is_usable(band: Band, rate_hz: u32) -> bool
    ensures { result ≡ usable band rate_hz }
{
    (1..=MAX_RATE).contains(&rate_hz) && 1 <= band.lo_mhz && 1 <= band.hi_mhz
}

impl Band {
    // The lags that this band covers at `rate_hz` samples a second.
    pub fn lags(self, rate_hz: u32) -> Result<Lags, Refusal>
        ensures answer { result ≡ lags_answer self rate_hz }
        ensures number { answered_number result ≡ lags_refusal self rate_hz }
    {
        if is_usable(self, rate_hz) {
            Ok(crate::steps::lags(self, rate_hz))
        } else {
            Err(Refusal::Settings)
        }
    }
}
