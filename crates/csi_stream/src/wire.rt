// The header's tests and its bytes: private to the crate.
ghost use Rattle.std.specs.Prelude.{◌≡◌, true, OnOk};
ghost use Rattle.csi_stream.specs.Wire.{header_bytes};
ghost use Rattle.csi_stream.specs.Codec.{legal, record_check};

use crate::Sample;
use refusal::Refusal;

// Whether a record is one sample: a whole header, the version, and as many I/Q bytes as the header says, at most 128.
#[tactic(auto, unfolding(crate::specs::Codec::record_check))]
pub(crate) fn check(bytes: &[u8]) -> Result<(), Refusal>
    ensures answer { result ≡ record_check bytes.now }
    ensures legal { OnOk result (legal bytes.now ≡ true) }
{
    let n = usize::from(*bytes.get(crate::COUNT_AT).ok_or(Refusal::Form)?);
    if bytes[0] != crate::VERSION || crate::MAX_IQ < n || bytes.len() != crate::HEADER_LEN + n {
        return Err(Refusal::Form);
    }
    Ok(())
}

// The 13 bytes before n I/Q bytes.
pub(crate) fn header(s: Sample, n: u8) -> [u8; crate::HEADER_LEN]
    ensures { result ≡ header_bytes s n }
{
    let mut header = [0; crate::HEADER_LEN];
    header[0] = crate::VERSION;
    header[crate::TAG_AT] = s.layout;
    header[crate::RSSI_AT] = s.rssi.cast_unsigned();
    header[crate::CHANNEL_AT] = s.channel;
    num::steps::put_word(&mut header, crate::TIME_AT, s.at);
    header[crate::COUNT_AT] = n;
    header
}
