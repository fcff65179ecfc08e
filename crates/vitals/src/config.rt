// How to estimate (vitals.rs, `VitalsConfig`).
ghost use Rattle.std.specs.Prelude.{◌≡◌};
ghost use Rattle.vitals.specs.Band.{breathing_at, heart_at};

use crate::band::Band;

// Frames averaged into a block mean, the rate of the means, the band, the block means between estimates, the confidence
// from which on an estimate is accepted, and the samples of the moving average to take off, or 0.
#[repr(C)]
#[derive(Clone, Copy, Debug, PartialEq, Eq)]
pub struct VitalsConfig {
    pub decim: u16,
    pub rate_hz: u32,
    pub band: Band,
    pub update_every: u16,
    pub accept_permille: u16,
    pub highpass: u16,
}

impl VitalsConfig {
    // Breathing, 9 to 33 a minute, from `frame_hz` frames a second: ten block means a second, an estimate every second.
    pub fn breathing(frame_hz: u32) -> VitalsConfig
        ensures { result ≡ breathing_at frame_hz }
    {
        VitalsConfig {
            decim: (frame_hz / 10 % 65536) as u16,
            rate_hz: 10,
            band: Band {
                lo_mhz: 150,
                hi_mhz: 550,
            },
            update_every: 10,
            accept_permille: 400,
            highpass: 0,
        }
    }

    // The heart, 42 to 132 a minute: 25 block means a second, a moving average of a second taken off.
    pub fn heart(frame_hz: u32) -> VitalsConfig
        ensures { result ≡ heart_at frame_hz }
    {
        VitalsConfig {
            decim: (frame_hz / 25 % 65536) as u16,
            rate_hz: 25,
            band: Band {
                lo_mhz: 700,
                hi_mhz: 2200,
            },
            update_every: 25,
            accept_permille: 400,
            highpass: 25,
        }
    }
}
