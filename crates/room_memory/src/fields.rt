// The small states in memory, each at a place of its own. The caller has tested the places.
ghost use Rattle.std.specs.Prelude.{◌≡◌, ◌+◌, ◌≤◌, length};
ghost use Rattle.room_memory.specs.Fields.{detector_len, detector_in, detector_bytes, progress_len, progress_in, progress_bytes, baseline_len, baseline_in, baseline_bytes, fall_len, fall_in, fall_bytes, pasted_at};

use detector::State;
use estimator::Progress;
use fall_words::Words;
use fingerprint::Baseline;
use num::steps::{put_word, word_at};

// ---- presence and phase: count, filled, next, wander, present, last motion

pub(crate) fn detector_in(m: &[u8], at: usize) -> State
    requires { at + detector_len ≤ length m.now }
    ensures { result ≡ detector_in m.now at }
{
    State {
        count: usize::from(m[at]),
        filled: usize::from(word_at::<u16>(m, at + 1)),
        next: usize::from(word_at::<u16>(m, at + 3)),
        wander: word_at(m, at + 5),
        present: m[at + crate::PRESENT_AT] == 1,
        last_motion: word_at(m, at + 10),
    }
}

pub(crate) fn put_detector(m: &mut [u8], at: usize, s: State)
    requires { at + detector_len ≤ length m.old }
    ensures { m.new ≡ pasted_at m.old at (detector_bytes s) }
{
    m[at] = (s.count % 256) as u8;
    put_word(m, at + 1, (s.filled % 65536) as u16);
    put_word(m, at + 3, (s.next % 65536) as u16);
    put_word(m, at + 5, s.wander);
    m[at + crate::PRESENT_AT] = u8::from(s.present);
    put_word(m, at + 10, s.last_motion);
}

// ---- breathing and heart without the totals: count, filled, next, frames in the open block, blocks since the last estimate

pub(crate) fn progress_in(m: &[u8], at: usize) -> Progress
    requires { at + progress_len ≤ length m.now }
    ensures { result ≡ progress_in m.now at }
{
    Progress {
        count: usize::from(m[at]),
        filled: usize::from(word_at::<u16>(m, at + 1)),
        next: usize::from(word_at::<u16>(m, at + 3)),
        acc_n: u32::from(word_at::<u16>(m, at + 5)),
        since_update: u32::from(word_at::<u16>(m, at + 7)),
    }
}

pub(crate) fn put_progress(m: &mut [u8], at: usize, s: Progress)
    requires { at + progress_len ≤ length m.old }
    ensures { m.new ≡ pasted_at m.old at (progress_bytes s) }
{
    m[at] = (s.count % 256) as u8;
    put_word(m, at + 1, (s.filled % 65536) as u16);
    put_word(m, at + 3, (s.next % 65536) as u16);
    put_word(m, at + 5, (s.acc_n % 65536) as u16);
    put_word(m, at + 7, (s.since_update % 65536) as u16);
}

// ---- the baseline: sum, frames

pub(crate) fn baseline_in(m: &[u8], at: usize) -> Baseline
    requires { at + baseline_len ≤ length m.now }
    ensures { result ≡ baseline_in m.now at }
{
    Baseline {
        sum: word_at(m, at),
        frames: u32::from(word_at::<u16>(m, at + 8)),
    }
}

pub(crate) fn put_baseline(m: &mut [u8], at: usize, b: Baseline)
    requires { at + baseline_len ≤ length m.old }
    ensures { m.new ≡ pasted_at m.old at (baseline_bytes b) }
{
    put_word(m, at, b.sum);
    put_word(m, at + 8, (b.frames % 65536) as u16);
}

// ---- the fall machine: tag, peak, two times

pub(crate) fn fall_in(m: &[u8], at: usize) -> Words
    requires { at + fall_len ≤ length m.now }
    ensures { result ≡ fall_in m.now at }
{
    Words {
        tag: m[at],
        peak: word_at(m, at + 1),
        a: word_at(m, at + 3),
        b: word_at(m, at + 11),
    }
}

pub(crate) fn put_fall(m: &mut [u8], at: usize, w: Words)
    requires { at + fall_len ≤ length m.old }
    ensures { m.new ≡ pasted_at m.old at (fall_bytes w) }
{
    m[at] = w.tag;
    put_word(m, at + 1, w.peak);
    put_word(m, at + 3, w.a);
    put_word(m, at + 11, w.b);
}
