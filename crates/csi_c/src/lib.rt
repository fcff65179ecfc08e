// Calls of csi from C and Rust.
#![tactic(auto)]

ghost use Rattle.std.specs.Prelude.{◌≡◌};
ghost use Rattle.csi.specs.Features.{features_answer, normalised_answer};
ghost use Rattle.csi_c.specs.Watched.{watched_answer};
ghost use Rattle.measured.specs.Measured.{measured};

use csi::Features;
use measured::Measured;
use refusal::Refusal;

#[unsafe(no_mangle)]
pub extern "C" fn csi_features(iq: &[u8], tag: u8) -> Measured
    ensures { result ≡ measured (features_answer iq.now tag) }
{
    csi::frame::features(iq, tag).into()
}

#[unsafe(no_mangle)]
pub extern "C" fn csi_normalised(f: Features) -> Measured
    ensures { result ≡ measured (normalised_answer f) }
{
    f.normalised().into()
}

// The features, divided by their mean.
fn watched(iq: &[u8], tag: u8) -> Result<Features, Refusal>
    ensures { result ≡ watched_answer iq.now tag }
{
    csi::frame::features(iq, tag)?.normalised()
}

#[unsafe(no_mangle)]
pub extern "C" fn csi_watched(iq: &[u8], tag: u8) -> Measured
    ensures { result ≡ measured (watched_answer iq.now tag) }
{
    watched(iq, tag).into()
}
