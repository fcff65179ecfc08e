// The calls of `phase` from C and Rust. A slice is two parameters there, a pointer and a length.
#![tactic(auto)]

ghost use Rattle.std.specs.Prelude.{◌≡◌, length};
ghost use Rattle.csi.specs.Layout.{frame_refusal};
ghost use Rattle.phase.specs.Angle.{angle_of};
ghost use Rattle.phase.specs.Phases.{phases_answer, angles_answer, angles_refusal};
ghost use Rattle.phase_c.specs.Answers.{shown};

use csi::MAX_SUBCARRIERS;
use phase::{Angles, Phases};
use refusal::Refusal;

// What a call answers: refusal 0 and the phases, or a refusal's number and no phases.
#[repr(C)]
#[derive(Clone, Copy)]
pub struct MeasuredPhases {
    pub refusal: u8,
    pub phases: Phases,
}

impl From<Result<Phases, Refusal>> for MeasuredPhases {
    ghost from_gives = { λ answer measured. measured ≡ shown answer };

    fn from(answer: Result<Phases, Refusal>) -> Self {
        match answer {
            Ok(phases) => MeasuredPhases { refusal: 0, phases },
            Err(refusal) => MeasuredPhases {
                refusal: refusal.number(),
                phases: Phases {
                    phase: [0i16; MAX_SUBCARRIERS],
                    count: 0,
                },
            },
        }
    }
}

#[unsafe(no_mangle)]
pub extern "C" fn phase_atan2_brad(y: i8, x: i8) -> i16
    ensures { result ≡ angle_of y x }
{
    phase::atan2_brad(y, x)
}

#[unsafe(no_mangle)]
pub extern "C" fn phase_phases(iq: &[u8], tag: u8) -> MeasuredPhases
    ensures answer { result ≡ shown (phases_answer iq.now tag) }
    ensures number { result.refusal ≡ frame_refusal (length iq.now) tag }
{
    MeasuredPhases::from(phase::frame::phases(iq, tag))
}

#[unsafe(no_mangle)]
pub extern "C" fn phase_of_angles(angles: Angles) -> MeasuredPhases
    ensures answer { result ≡ shown (angles_answer angles) }
    ensures number { result.refusal ≡ angles_refusal angles.count }
{
    MeasuredPhases::from(angles.phases())
}
