// Replays recorded baselines: a line for each. `stdout` holds what the Rust answered, and, where the Rust answers and this
// refuses, the refusal.
#![tactic(auto)]

use csi::Features;
use fingerprint::Baseline;
use refusal::Refusal;
use std::io;

// A case: the baseline's sum and frames, a frame's count and its variance, words low byte first.
const FRAMES: usize = 8;

const COUNT: usize = 12;

const VARIANCE: usize = 13;

const LENGTH: usize = 17;

const MOST_BYTES: usize = 64;

// Prints the value, or `refused NUMBER`.
fn reading(rt: &impl Print, answer: Result<u32, Refusal>) -> io::Result<()> {
    match answer {
        Ok(v) => print!(rt; " {v}"),
        Err(reason) => print!(rt; " {reason}"),
    }
}

fn calibrated(rt: &impl Print, answer: Result<Baseline, Refusal>) -> io::Result<()> {
    match answer {
        Ok(b) => print!(rt; " {} {}", b.sum, b.frames),
        Err(reason) => print!(rt; " {reason}"),
    }
}

fn line(rt: &impl Print, bytes: &[u8]) -> io::Result<()> {
    if LENGTH <= bytes.len() {
        let b = Baseline {
            sum: num::steps::word_at(bytes, 0),
            frames: num::steps::word_at(bytes, FRAMES),
        };
        let f = Features {
            amplitude: [0u16; csi::MAX_SUBCARRIERS],
            count: bytes[COUNT],
            mean: 0,
            variance: num::steps::word_at(bytes, VARIANCE),
        };
        print!(rt; "mean")?;
        reading(rt, b.mean())?;
        print!(rt; " distance")?;
        reading(rt, b.distance(f))?;
        print!(rt; " calibrated")?;
        calibrated(rt, b.calibrate(f))?;
    }
    println!(rt; "")
}

fn main(rt: HostRuntime) -> io::Result<()> {
    cases::steps::each::<MOST_BYTES, _>(&rt, |case| line(&rt, case))
}
