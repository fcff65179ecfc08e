// The judgement of a sample by its bytes.
ghost use Rattle.std.specs.Prelude.{◌≡◌, IfOk};
ghost use Rattle.std.specs.Result.{result_map_both};
ghost use Rattle.refusal.specs.Refusal.{answered_number};
ghost use Rattle.room_sensing.specs.Sensing.{bytes_refusal, sample_check, tag_of, time_of, iq_of};

use csi_stream::Sample;
use refusal::Refusal;

// The bytes of a sample that are not refused, and what they hold: the layout's tag, the time, the I/Q bytes.
#[derive(Clone, Copy)]
pub struct Judged<'a> {
    pub bytes: &'a [u8],
    pub tag: u8,
    pub time: u64,
    pub iq: &'a [u8],
    pub ghost fine: { bytes_refusal bytes.now ≡ 0 },
    pub ghost tag_is: { tag ≡ tag_of bytes.now },
    pub ghost time_is: { time ≡ time_of bytes.now },
    pub ghost iq_is: { iq.now ≡ iq_of bytes.now },
}

// Refused where it is no sample, then as by `csi::frame::check`.
pub fn check(body: &[u8]) -> Result<Judged<'_>, Refusal>
    ensures answer { result_map_both (λ s. tt) (λ e. e) result ≡ sample_check body.now }
    ensures number { answered_number result ≡ bytes_refusal body.now }
    ensures judged { IfOk result (λ s. s.bytes.now ≡ body.now) }
{
    let (sample, iq) = Sample::decode(body)?;
    csi::frame::check(iq.len(), sample.layout)?;
    Ok(Judged {
        bytes: body,
        tag: sample.layout,
        time: sample.at,
        iq,
    })
}
