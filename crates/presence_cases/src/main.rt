// Replays recorded runs of the presence detector through its public calls: a line for each run. `stdout` holds what the Rust
// answered, and the refusals.
#![tactic(auto)]

use detector::Limits;
use num::steps::word_at;
use presence::{Config, Sums};
use replays::{COLUMNS, Kind, LONGEST};
use sliding::Frame;
use std::io;

// The limits of a run are its thresholds (two, two bytes) and its hold (eight), low bytes first.
const LIMITS: usize = 12;

struct Presence;

impl Kind for Presence {
    type Sums = Sums;

    fn limits(bytes: &[u8]) -> Option<(Limits, &[u8])> {
        let (head, behind) = bytes.split_first_chunk::<LIMITS>()?;
        let config = Config {
            on_permille: word_at(head, 0),
            off_permille: word_at(head, 2),
            hold: word_at(head, 4),
        };
        Some((Limits::from(config), behind))
    }

    fn put(entries: &mut [u16; COLUMNS], bits: [u16; COLUMNS]) {
        *entries = bits;
    }

    fn damage(sums: &mut Sums) {
        sums.sumsq[63] = sums.sumsq[63].wrapping_add(1);
    }
}

fn line(rt: &impl Print, bytes: &[u8]) -> io::Result<()> {
    let mut frame = Frame {
        entries: [0u16; COLUMNS],
        count: 0,
        time: 0,
    };
    replays::replay::<Presence>(rt, &mut frame, bytes)
}

fn main(rt: HostRuntime) -> io::Result<()> {
    cases::steps::each::<LONGEST, _>(&rt, |case| line(&rt, case))
}
