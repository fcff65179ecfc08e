// One channel sample on the wire, version 1 (csi_stream.rs): 13 header bytes, then the I/Q bytes.
#![tactic(auto)]

mod features;
mod wire;

ghost use Rattle.std.specs.Prelude.{◌≡◌, ◌≤◌, length, IfOk};
ghost use Rattle.std.specs.Result.{result_map_both};
ghost use Rattle.refusal.specs.Refusal.{answered_number};
ghost use Rattle.csi_stream.specs.Codec.{decode_refusal, encode_refusal, decode_of, IqOf, PartFrom, reason, encode_of, encoded_number, encode_into};
ghost use Rattle.csi_stream.specs.Wire.{header_len, max_iq};

use refusal::Refusal;

// The version byte that every encoding starts with.
pub const VERSION: u8 = 1;
// Bytes before the I/Q.
pub const HEADER_LEN: usize = 13;
// The most I/Q bytes that a sample carries.
pub const MAX_IQ: usize = 128;

// Where the header's numbers stand, behind the version: layout tag, signal strength, channel, time, number of I/Q bytes.
pub(crate) const TAG_AT: usize = 1;

pub(crate) const RSSI_AT: usize = 2;

pub(crate) const CHANNEL_AT: usize = 3;

pub(crate) const TIME_AT: usize = 4;

pub(crate) const COUNT_AT: usize = 12;

// The numbers of one sample. The I/Q bytes are a slice beside it, whose length is the Rust's `len`.
#[derive(Clone, Copy, Debug, PartialEq, Eq)]
pub struct Sample {
    pub at: u64,
    pub rssi: i8,
    pub channel: u8,
    pub layout: u8,
}

// Why a sample is not encoded: more I/Q bytes than it carries, or too little space, with the space that it needs.
#[derive(Clone, Copy, Debug, PartialEq, Eq)]
pub enum EncodeError {
    Form,
    Space { need: usize },
}

impl From<EncodeError> for Refusal {
    ghost from_gives = { λ e r. r ≡ reason e };

    fn from(e: EncodeError) -> Self {
        match e {
            EncodeError::Form => Refusal::Form,
            EncodeError::Space { .. } => Refusal::Space,
        }
    }
}

impl Sample {
    // Reads a record, the whole of which must be one sample: its numbers, and the part of it from byte 13 on, its I/Q bytes.
    // Any layout tag is taken.
    #[tactic(auto, using(crate::proofs::Answers::tests), unfolding(crate::specs::Codec::decode_of, crate::specs::Codec::record_check))]
    pub fn decode(bytes: &[u8]) -> Result<(Self, &[u8]), Refusal>
        ensures answer { result_map_both (λ p. (p.0, length p.1.now)) (λ e. e) result ≡ decode_of bytes.now }
        ensures number { answered_number result ≡ decode_refusal bytes.now }
        ensures part { IfOk result (λ p. PartFrom header_len bytes.entry p.1) }
        ensures few { IfOk result (λ p. length p.1.now ≤ max_iq) }
    {
        wire::check(bytes)?;
        let sample = Sample {
            at: num::steps::word_at(bytes, TIME_AT),
            rssi: bytes[RSSI_AT].cast_signed(),
            channel: bytes[CHANNEL_AT],
            layout: bytes[TAG_AT],
        };
        Ok((sample, &bytes[HEADER_LEN..]))
    }

    // The I/Q bytes of a record that decodes. Of any other record, nothing.
    #[tactic(auto, unfolding(crate::specs::Codec::decode_of))]
    pub fn iq(bytes: &[u8]) -> &[u8]
        ensures { IqOf bytes.entry result }
    {
        match Sample::decode(bytes) {
            Ok((_, iq)) => iq,
            Err(_) => &bytes[..0],
        }
    }

    // Writes the sample with its I/Q bytes to the front of `out`, and says how many bytes that are.
    #[tactic(auto, unfolding(crate::specs::Codec::encode_of, crate::specs::Codec::encode_into))]
    pub fn encode(self, iq: &[u8], out: &mut [u8]) -> Result<usize, EncodeError>
        ensures answer { result ≡ encode_of (length iq.now) (length out.old) }
        ensures number { encoded_number result ≡ encode_refusal (length iq.now) (length out.old) }
        ensures space { out.new ≡ encode_into self iq.now out.old }
    {
        let n = iq.len();
        if MAX_IQ < n {
            return Err(EncodeError::Form);
        }
        let total = HEADER_LEN + n;
        if out.len() < total {
            return Err(EncodeError::Space { need: total });
        }
        let header = wire::header(self, n as u8);
        num::steps::put(&header, out);
        num::steps::put(iq, &mut out[HEADER_LEN..]);
        Ok(total)
    }
}
