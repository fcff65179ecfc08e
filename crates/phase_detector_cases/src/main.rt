// Replays recorded runs of the phase detector through its public calls: a line for each run. `stdout` holds what the Rust
// answered, and the refusals.
#![tactic(auto)]

use detector::Limits;
use num::steps::word_at;
use phase_detector::{Config, Sums};
use replays::{COLUMNS, Kind, LONGEST};
use sliding::Frame;
use std::io;

// The limits of a run are its thresholds (four, four bytes) and its hold (eight), low bytes first.
const LIMITS: usize = 16;

struct Phase;

impl Kind for Phase {
    type Sums = Sums;

    fn limits(bytes: &[u8]) -> Option<(Limits, &[u8])> {
        let (head, behind) = bytes.split_first_chunk::<LIMITS>()?;
        let config = Config {
            on_ppm: word_at(head, 0),
            off_ppm: word_at(head, 4),
            hold: word_at(head, 8),
        };
        Some((Limits::from(config), behind))
    }

    fn put(entries: &mut [i16; COLUMNS], bits: [u16; COLUMNS]) {
        for (angle, x) in entries.iter_mut().zip(bits) {
            *angle = x.cast_signed();
        }
    }

    fn damage(sums: &mut Sums) {
        sums.sin[63] = 16385;
    }
}

fn line(rt: &impl Print, bytes: &[u8]) -> io::Result<()> {
    let mut frame = Frame {
        entries: [0i16; COLUMNS],
        count: 0,
        time: 0,
    };
    replays::replay::<Phase>(rt, &mut frame, bytes)
}

fn main(rt: HostRuntime) -> io::Result<()> {
    cases::steps::each::<LONGEST, _>(&rt, |case| line(&rt, case))
}
