// Replays the recorded angles and phases: a line for each case. `stdout` holds what the Rust answered.
#![tactic(auto)]

use phase::{Angles, Phases};
use refusal::Refusal;
use std::io;

// What the first byte of a case says: the bytes behind it are two signed bytes, y and x; a layout tag and I/Q bytes; a count
// and 64 angles, low byte first.
const ANGLE: u8 = 0;

const SAMPLE: u8 = 1;

const MOST_ANGLES: usize = 64;

// How many phases are in use and the whole array, or the refusal.
fn answer(rt: &impl Print, measured: Result<Phases, Refusal>) -> io::Result<()> {
    match measured {
        Ok(p) => {
            print!(rt; "phases {}", p.count)?;
            for phase in &p.phase {
                print!(rt; " {phase}")?;
            }
            Ok(())
        }
        Err(refusal) => print!(rt; "{refusal}"),
    }
}

fn angle(rt: &impl Print, y: u8, x: u8) -> io::Result<()> {
    let angle = phase::atan2_brad(y.cast_signed(), x.cast_signed());
    print!(rt; "angle {angle}")
}

// The angles of a case; zeros where it holds fewer than 64.
fn hand_made(count: u8, bytes: &[u8]) -> Angles {
    let mut angle = [0i16; MOST_ANGLES];
    if 2 * MOST_ANGLES <= bytes.len() {
        for (a, &word) in angle.iter_mut().zip(bytes.as_chunks::<2>().0) {
            *a = i16::from_le_bytes(word);
        }
    }
    Angles { angle, count }
}

fn line(rt: &impl Print, case: &[u8]) -> io::Result<()> {
    match case {
        [SAMPLE, tag, iq @ ..] => answer(rt, phase::frame::phases(iq, *tag))?,
        [ANGLE, y, x, ..] => angle(rt, *y, *x)?,
        [ANGLE, _] => {}
        [_, count, angles @ ..] => answer(rt, hand_made(*count, angles).phases())?,
        _ => return Ok(()),
    }
    println!(rt; "")
}

fn main(rt: HostRuntime) -> io::Result<()> {
    cases::steps::each::<512, _>(&rt, |case| line(&rt, case))
}
