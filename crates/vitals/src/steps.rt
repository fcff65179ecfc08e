// The steps of an estimate. The caller has tested the settings and the lengths.
pub mod correlation;
pub mod divide;
mod energy;
pub mod padded;
mod part;
mod peak;
pub mod rate;
pub mod series;
pub mod summed;

ghost use Rattle.std.specs.Prelude.{◌≡◌, true};
ghost use Rattle.vitals.specs.Band.{usable, lags_of};

use crate::band::{Band, Lags};

// The lags that a band covers at `rate_hz` samples a second.
#[tactic(auto, unfolding(crate::specs::Band::usable))]
pub fn lags(band: Band, rate_hz: u32) -> Lags
    requires { usable band rate_hz ≡ true }
    ensures { result ≡ lags_of band rate_hz }
{
    let samples = (rate_hz as usize) * 1000;
    Lags {
        lo: (samples / (band.hi_mhz as usize)).max(2),
        hi: samples.div_ceil(band.lo_mhz as usize),
    }
}
