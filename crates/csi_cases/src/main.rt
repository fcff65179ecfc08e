// Replays recorded frames and hand-made features: a line for each. `stdout` holds what the Rust answered, and, where the Rust answers
// and this refuses, the refusal.
#![tactic(auto)]

use csi::Features;
use refusal::Refusal;
use std::io;

// A case: a kind, then a tag and I/Q bytes, or the fields of features (count, amplitudes, mean, variance; words low byte first).
const FRAME: u8 = 0;

const MOST_BYTES: usize = 512;

// The length of the second kind of case, and where its fields stand.
const HAND_MADE: usize = 136;

const AMPLITUDES: usize = 2;

const MEAN: usize = 130;

const VARIANCE: usize = 132;

// Prints an answer: `COUNT MEAN VARIANCE CHECK`, or `refused NUMBER`.
fn measured(rt: &impl Print, answer: Result<Features, Refusal>) -> io::Result<()> {
    match answer {
        Ok(f) => {
            let check = cases::check(&f.amplitude);
            print!(rt; " {} {} {} {check}", f.count, f.mean, f.variance)
        }
        Err(reason) => print!(rt; " {reason}"),
    }
}

// The features of I/Q bytes, and the same normalised.
fn frame(rt: &impl Print, iq: &[u8], tag: u8) -> io::Result<()> {
    let answer = csi::frame::features(iq, tag);
    print!(rt; "features")?;
    measured(rt, answer)?;
    if let Ok(f) = answer {
        print!(rt; " normalised")?;
        measured(rt, f.normalised())?;
    }
    Ok(())
}

fn hand_made(rt: &impl Print, bytes: &[u8]) -> io::Result<()> {
    if bytes.len() < HAND_MADE {
        return Ok(());
    }
    let f = Features {
        amplitude: cases::words(&bytes[AMPLITUDES..]),
        count: bytes[1],
        mean: num::steps::word_at(bytes, MEAN),
        variance: num::steps::word_at(bytes, VARIANCE),
    };
    print!(rt; "normalised")?;
    measured(rt, f.normalised())
}

fn line(rt: &impl Print, bytes: &[u8]) -> io::Result<()> {
    match bytes {
        [FRAME, tag, iq @ ..] => frame(rt, iq, *tag)?,
        [_, _, ..] => hand_made(rt, bytes)?,
        _ => {}
    }
    println!(rt; "")
}

fn main(rt: HostRuntime) -> io::Result<()> {
    cases::steps::each::<MOST_BYTES, _>(&rt, |case| line(&rt, case))
}
