// Features as C sees them: a refusal's number beside them.
#![tactic(auto)]

ghost use Rattle.std.specs.Prelude.{◌≡◌};
ghost use Rattle.measured.specs.Measured.{measured, refused};

use csi::{Features, MAX_SUBCARRIERS};
use refusal::Refusal;

// Refusal 0 and the features, or a refusal's number and no features.
#[repr(C)]
#[derive(Clone, Copy)]
pub struct Measured {
    pub refusal: u8,
    pub features: Features,
}

impl Measured {
    // No features, and why by any number.
    pub fn refused(number: u8) -> Self
        ensures { result ≡ refused number }
    {
        Measured {
            refusal: number,
            features: Features {
                amplitude: [0u16; MAX_SUBCARRIERS],
                count: 0,
                mean: 0,
                variance: 0,
            },
        }
    }
}

impl From<Result<Features, Refusal>> for Measured {
    ghost from_gives = { λ answer m. m ≡ measured answer };

    fn from(answer: Result<Features, Refusal>) -> Self {
        match answer {
            Ok(features) => Measured {
                refusal: 0,
                features,
            },
            Err(reason) => Measured::refused(reason.number()),
        }
    }
}
