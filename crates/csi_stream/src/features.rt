// The features of a record (`Sample::features`).
ghost use Rattle.std.specs.Prelude.{◌≡◌};
ghost use Rattle.csi_stream.specs.Features.{record_features};

use crate::Sample;
use csi::Features;
use refusal::Refusal;

impl Sample {
    // The features of a record's I/Q bytes under its layout tag. Refused where it is no sample, then as by `csi::frame::check`.
    #[tactic(auto, unfolding(crate::specs::Features::record_features, crate::specs::Codec::decode_of))]
    pub fn features(bytes: &[u8]) -> Result<Features, Refusal>
        ensures { result ≡ record_features bytes.now }
    {
        let (sample, iq) = Sample::decode(bytes)?;
        csi::frame::features(iq, sample.layout)
    }
}
