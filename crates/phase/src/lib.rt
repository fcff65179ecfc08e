// The phase of a channel sample (phase.rs): angles in binary radians, 65,536 to a turn.
#![tactic(auto)]

ghost use Rattle.std.specs.Prelude.{◌≡◌};
ghost use Rattle.refusal.specs.Refusal.{answered_number};
ghost use Rattle.phase.specs.Phases.{angles_answer, angles_refusal};
ghost use Rattle.phase.specs.Angle.{angle_of};

mod angle;
pub mod frame;
mod line;
pub mod steps;
pub mod tables;

use csi::MAX_SUBCARRIERS;
use refusal::Refusal;
use tables::AtanTable;

// The angle of (x, y), for one alone: `AtanTable::angle` reads the same from a table at hand.
pub fn atan2_brad(y: i8, x: i8) -> i16
    ensures { result ≡ angle_of y x }
{
    AtanTable::new().angle(y, x)
}

// Angles, of which the first `count` are in use.
#[repr(C)]
#[derive(Clone, Copy)]
pub struct Angles {
    pub angle: [i16; MAX_SUBCARRIERS],
    pub count: u8,
}

// What is left of the angles where the frame's line is taken off, one for each subcarrier in use: the first `count`. Behind them stands 0.
#[repr(C)]
#[derive(Clone, Copy)]
pub struct Phases {
    pub phase: [i16; MAX_SUBCARRIERS],
    pub count: u8,
}

// The fewest points that a line is drawn through.
const MIN_POINTS: usize = 2;

impl Angles {
    // The phases of these angles. Refused where there are more than 64, or fewer than 2.
    pub fn phases(self) -> Result<Phases, Refusal>
        ensures answer { result ≡ angles_answer self }
        ensures number { answered_number result ≡ angles_refusal self.count }
    {
        let n = usize::from(self.count);
        if !(MIN_POINTS..=MAX_SUBCARRIERS).contains(&n) {
            return Err(Refusal::Count);
        }
        let angle = self.angle;
        Ok(Phases {
            phase: line::line_off(&angle[..n]),
            count: self.count,
        })
    }
}
