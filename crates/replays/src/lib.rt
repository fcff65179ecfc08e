// Replays a recorded run of a detector through its public calls, for any sums of columns: what both detectors' programs share. A run is printed in a line.
#![tactic(auto)]

use detector::{Limits, State, Verdict};
use num::MAX_SUBCARRIERS;
use num::steps::word_at;
use refusal::{Refusal, answered_number};
use sliding::steps::ColumnSums;
use sliding::{Frame, Held};
use std::io;

// The longest run, in bytes, and the largest memory that one is lent.
pub const LONGEST: usize = 16384;

const MEMORY: usize = 1048576;

// What the memory holds before.
const FILL: u8 = 0xa5;

// A run is its window (two bytes) and its memory's length (four), low bytes first; then its limits, and its frames.
const HEAD: usize = 6;

// A frame is how often it comes (two bytes), its count (one), its time (eight), which grows by 1 from one to the next, and
// its entries (two bytes each), none where the count is above 64.
const FRAME_HEAD: usize = 11;

pub const COLUMNS: usize = MAX_SUBCARRIERS;

// What a kind of detector has of its own in a run.
pub trait Kind {
    type Sums: ColumnSums;

    // The limits that bytes begin with, and the bytes behind them.
    fn limits(bytes: &[u8]) -> Option<(Limits, &[u8])>;

    // Writes its entries, from 16 bits each.
    fn put(entries: &mut [<Self::Sums as ColumnSums>::Entry; COLUMNS], bits: [u16; COLUMNS]);

    // Makes one of the sums wrong.
    fn damage(sums: &mut Self::Sums);
}

// A run's window, the length of the memory that it is lent, and its limits.
#[derive(Clone, Copy)]
struct Run {
    w: usize,
    len: usize,
    limits: Limits,
}

// What stands in the place of a count.
enum Step {
    Reset,
    Damage,
    Push { count: usize },
}

impl From<u8> for Step {
    fn from(count: u8) -> Step {
        match count {
            255 => Step::Reset,
            254 => Step::Damage,
            _ => Step::Push {
                count: usize::from(count),
            },
        }
    }
}

// The bytes of the entries behind a count.
fn entries_len(count: u8) -> usize {
    let count = usize::from(count);
    if COLUMNS < count { 0 } else { 2 * count }
}

// A detector in its run. Its memory and its frame are lent to each call: the proof does not reach behind a reference of a lent struct.
#[derive(Drop)]
struct Running<K: Kind> {
    run: Run,
    held: Held<K::Sums>,
}

impl<K: Kind> Running<K> {
    // A frame, as often as it comes; the last answer is printed.
    fn fed(
        &mut self,
        rt: &impl Print,
        rows: &mut [u8],
        frame: &mut Frame<<K::Sums as ColumnSums>::Entry>,
        times: u16,
    ) -> io::Result<()> {
        let mut last = Ok(Verdict::Warming);
        for _ in 0..times {
            last = self.held.push(rows, self.run.w, self.run.limits, frame);
            frame.time = frame.time.wrapping_add(1);
        }
        match last {
            Ok(verdict) => {
                let (tag, motion) = (verdict.tag(), verdict.motion());
                print!(rt; " {tag} {motion} {}", self.held.state.wander)
            }
            Err(refusal) => print!(rt; " {refusal}"),
        }
    }

    // What stands in a part: its head, and its entries.
    fn part(
        &mut self,
        rt: &impl Print,
        rows: &mut [u8],
        frame: &mut Frame<<K::Sums as ColumnSums>::Entry>,
        head: &[u8; FRAME_HEAD],
        entries: &[u8],
    ) -> io::Result<()> {
        match Step::from(head[2]) {
            Step::Reset => {
                let answer = self.held.reset(rows, self.run.w);
                print!(rt; " reset {}", answered_number(answer))
            }
            Step::Damage => {
                K::damage(&mut self.held.sums);
                Ok(())
            }
            Step::Push { count } => {
                K::put(&mut frame.entries, cases::words(entries));
                frame.count = count;
                frame.time = word_at(head, 3);
                self.fed(rt, rows, frame, word_at(head, 0))
            }
        }
    }

    // All frames of a run.
    fn frames(
        &mut self,
        rt: &impl Print,
        rows: &mut [u8],
        frame: &mut Frame<<K::Sums as ColumnSums>::Entry>,
        bytes: &[u8],
    ) -> io::Result<()> {
        let mut left = bytes;
        while let Some((head, behind)) = left.split_first_chunk::<FRAME_HEAD>() {
            let (entries, next) = behind.split_at(entries_len(head[2]).min(behind.len()));
            self.part(rt, rows, frame, head, entries)?;
            left = next;
        }
        Ok(())
    }
}

// A new detector over the front of `rows`, and its frames.
fn line<K: Kind>(
    rt: &impl Print,
    rows: &mut [u8],
    run: Run,
    frame: &mut Frame<<K::Sums as ColumnSums>::Entry>,
    bytes: &[u8],
) -> io::Result<()> {
    let len = run.len.min(rows.len());
    let lent = &mut rows[..len];
    let answer: Result<Held<K::Sums>, Refusal> = Held::new(lent, run.w);
    print!(rt; "new {}", answered_number(answer))?;
    let held = answer.unwrap_or(Held {
        state: State::new(),
        sums: K::Sums::none(),
    });
    let mut running: Running<K> = Running { run, held };
    running.frames(rt, lent, frame, bytes)?;
    println!(rt; "")
}

// What a run begins with, and its frames.
fn begun<K: Kind>(bytes: &[u8]) -> Option<(Run, &[u8])> {
    let (head, behind) = bytes.split_first_chunk::<HEAD>()?;
    let (limits, frames) = K::limits(behind)?;
    let run = Run {
        w: usize::from(word_at::<u16>(head, 0)),
        len: word_at::<u32>(head, 2) as usize,
        limits,
    };
    Some((run, frames))
}

// A run over memory that holds something before. `frame` is any, for the frames to be written to.
pub fn replay<K: Kind>(
    rt: &impl Print,
    frame: &mut Frame<<K::Sums as ColumnSums>::Entry>,
    bytes: &[u8],
) -> io::Result<()> {
    let Some((run, frames)) = begun::<K>(bytes) else {
        return Ok(());
    };
    let mut rows = [FILL; MEMORY];
    line::<K>(rt, &mut rows, run, frame, frames)
}
