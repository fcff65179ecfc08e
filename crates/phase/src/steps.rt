// Calls for the crates above, which have judged their input once.
ghost use Rattle.std.specs.Prelude.{◌≡◌, length};
ghost use Rattle.csi.specs.Layout.{frame_refusal};
ghost use Rattle.phase.specs.Phases.{frame_phases};

use crate::Phases;
use csi::MAX_SUBCARRIERS;

// The phases of I/Q bytes that `csi::frame::check` does not refuse under this tag.
pub fn phases(iq: &[u8], tag: u8) -> Phases
    requires { frame_refusal (length iq.now) tag ≡ 0 }
    ensures { result ≡ frame_phases iq.now tag }
{
    let layout = csi::steps::layout_of(tag);
    let n = layout.count();
    let mut angles = [0i16; MAX_SUBCARRIERS];
    let used = &mut angles[..n];
    crate::frame::angles(iq, layout, used);
    Phases {
        phase: crate::line::line_off(used),
        count: n as u8,
    }
}
