// The features of one channel sample (csi.rs, `CsiFrame`): its I/Q bytes as a slice, beside the layout tag.
ghost use Rattle.std.specs.Prelude.{◌≡◌, length};
ghost use Rattle.refusal.specs.Refusal.{answered_number};
ghost use Rattle.csi.specs.Features.{features_answer};
ghost use Rattle.csi.specs.Layout.{frame_check, frame_refusal};

use crate::{Features, Layout};
use refusal::Refusal;

// Whether so many I/Q bytes have features under this tag. Refused: an unknown tag, and fewer bytes than the layout needs.
#[tactic(auto, unfolding(crate::specs::Layout::frame_check, crate::specs::Layout::frame_refusal, crate::specs::Layout::layout_for))]
pub fn check(len: usize, tag: u8) -> Result<(), Refusal>
    ensures answer { result ≡ frame_check len tag }
    ensures number { answered_number result ≡ frame_refusal len tag }
{
    let layout = Layout::of(tag).ok_or(Refusal::Tag)?;
    if len < layout.need() {
        return Err(Refusal::Iq);
    }
    Ok(())
}

// The features of the I/Q bytes of a sample with this layout tag. Refused as by `check`.
#[tactic(auto, unfolding(crate::specs::Features::features_answer))]
pub fn features(iq: &[u8], tag: u8) -> Result<Features, Refusal>
    ensures answer { result ≡ features_answer iq.now tag }
    ensures number { answered_number result ≡ frame_refusal (length iq.now) tag }
{
    check(iq.len(), tag)?;
    Ok(crate::steps::features(iq, tag))
}
