// Replays the recorded records of the wire form: a line for each, with what decoding and encoding answer. `stdout` holds what the Rust answered.
#![tactic(auto)]

use csi_stream::{EncodeError, HEADER_LEN, Sample};
use refusal::Refusal;
use std::io;

// The space that encoding gets, and what it holds before.
const SPACE: usize = 150;

const FILL: u8 = 0xa5;

// What a record decodes to: its numbers, or zeros where it is refused.
fn decoded(rt: &impl Print, bytes: &[u8]) -> io::Result<Sample> {
    match Sample::decode(bytes) {
        Ok((s, iq)) => {
            print!(rt;
                "sample {} {} {} {} {}",
                s.layout,
                s.rssi,
                s.channel,
                s.at,
                iq.len()
            )?;
            Ok(s)
        }
        Err(reason) => {
            print!(rt; "{reason}")?;
            Ok(Sample {
                at: 0,
                rssi: 0,
                channel: 0,
                layout: 0,
            })
        }
    }
}

// Encodes into the first `size` bytes of the space.
fn encoded(rt: &impl Print, s: Sample, iq: &[u8], size: usize) -> io::Result<()> {
    let mut out = [FILL; SPACE];
    match s.encode(iq, &mut out[..size.min(SPACE)]) {
        Ok(total) => print!(rt; " written {total} {}", cases::check(&out)),
        Err(EncodeError::Form) => print!(rt; " {}", Refusal::Form),
        Err(EncodeError::Space { need }) => print!(rt; " short {need}"),
    }
}

// One record: decoded, then its numbers encoded with the bytes behind a header as I/Q, into the whole space and into one byte too few.
fn line(rt: &impl Print, bytes: &[u8]) -> io::Result<()> {
    let s = decoded(rt, bytes)?;
    let iq = bytes.get(HEADER_LEN..).unwrap_or(&[]);
    encoded(rt, s, iq, SPACE)?;
    encoded(rt, s, iq, bytes.len().max(HEADER_LEN) - 1)?;
    println!(rt; "")
}

fn main(rt: HostRuntime) -> io::Result<()> {
    cases::steps::each::<512, _>(&rt, |case| line(&rt, case))
}
