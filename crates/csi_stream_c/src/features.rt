// The features of a record, for Rust and C.
ghost use Rattle.std.specs.Prelude.{◌≡◌};
ghost use Rattle.csi_stream.specs.Features.{record_features};
ghost use Rattle.measured.specs.Measured.{measured};

use csi_stream::Sample;
use measured::Measured;

#[unsafe(no_mangle)]
pub extern "C" fn csi_sample_features(bytes: &[u8]) -> Measured
    ensures { result ≡ measured (record_features bytes.now) }
{
    Sample::features(bytes).into()
}
