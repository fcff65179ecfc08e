// The wire form for Rust and C: numbers, references to numbers, slices as pointer and length.
#![tactic(auto)]

pub mod features;

ghost use Rattle.std.specs.Prelude.{◌≡◌, length};
ghost use Rattle.refusal.specs.Refusal.{answered_number};
ghost use Rattle.csi_stream.specs.Codec.{decode_of, encode_of, encode_into, encoded_number};
ghost use Rattle.csi_stream_c.specs.Numbers.{decoded_sample, decoded_len, encoded_value, sample_from};

use csi_stream::{EncodeError, Sample};
use refusal::Refusal;

// What encoding answers: the refusal number, 0 where the sample is written, and the bytes written or needed.
#[repr(C)]
#[derive(Clone, Copy)]
pub struct CsiEncoded {
    pub refusal: u64,
    pub bytes: u64,
}

impl From<Result<usize, EncodeError>> for CsiEncoded {
    ghost from_gives = { λ answer e. (e.refusal ≡ encoded_number answer) × (e.bytes ≡ encoded_value answer) };

    fn from(answer: Result<usize, EncodeError>) -> Self {
        match answer {
            Ok(total) => CsiEncoded {
                refusal: 0,
                bytes: total as u64,
            },
            Err(error) => CsiEncoded {
                refusal: u64::from(Refusal::from(error).number()),
                bytes: match error {
                    EncodeError::Form => 0,
                    EncodeError::Space { need } => need as u64,
                },
            },
        }
    }
}

// Decodes a record: the refusal number, 0 where it is accepted. The numbers go through the references, which a refusal leaves.
#[unsafe(no_mangle)]
pub extern "C" fn csi_decode(
    bytes: &[u8],
    at: &mut u64,
    rssi: &mut i8,
    channel: &mut u8,
    layout: &mut u8,
    len: &mut u8,
) -> u64
    ensures number { result ≡ answered_number (decode_of bytes.now) }
    ensures numbers { sample_from at.new rssi.new channel.new layout.new ≡ decoded_sample (decode_of bytes.now) (sample_from at.old rssi.old channel.old layout.old) }
    ensures count { len.new ≡ decoded_len (decode_of bytes.now) len.old }
{
    match Sample::decode(bytes) {
        Ok((s, iq)) => {
            *at = s.at;
            *rssi = s.rssi;
            *channel = s.channel;
            *layout = s.layout;
            *len = iq.len() as u8;
            0
        }
        Err(reason) => u64::from(reason.number()),
    }
}

// Encodes a sample to the front of `out`.
#[unsafe(no_mangle)]
pub extern "C" fn csi_encode(
    at: u64,
    rssi: i8,
    channel: u8,
    layout: u8,
    iq: &[u8],
    out: &mut [u8],
) -> CsiEncoded
    ensures answer { (result.refusal ≡ encoded_number (encode_of (length iq.now) (length out.old))) × (result.bytes ≡ encoded_value (encode_of (length iq.now) (length out.old))) }
    ensures space { out.new ≡ encode_into (sample_from at rssi channel layout) iq.now out.old }
{
    let sample = Sample {
        at,
        rssi,
        channel,
        layout,
    };
    sample.encode(iq, out).into()
}
