// A detector over a sliding window, for any sums of its columns (csi.rs, `PresenceDetector`; phase.rs, `PhaseDetector`).
#![tactic(auto)]

ghost use Rattle.std.specs.Prelude.{◌≡◌, replicate};
ghost use Rattle.std.specs.Result.{result_unwrap_or};
ghost use Rattle.window.specs.Window.{columns};
ghost use Rattle.detector.specs.State.{new_state};
ghost use Rattle.detector.specs.declared.Verdict.TheVariants.{Warming};
ghost use Rattle.detector.specs.Calls.{Begins, Resets, Calls};
ghost use Rattle.refusal.specs.Refusal.{answered_number};
ghost use Rattle.sliding.specs.Answers.{after, state_check};

use detector::{Limits, State, Verdict};
use refusal::Refusal;
use steps::ColumnSums;
use window::COLUMNS;

pub mod steps;
pub mod words;

// A frame: the first `count` entries, taken at `time`.
#[derive(Clone, Copy)]
pub struct Frame<E> {
    pub entries: [E; COLUMNS],
    pub count: usize,
    pub time: u64,
}

// What a detector holds between calls, beside its rows.
#[derive(Clone, Copy)]
pub struct Held<S> {
    pub state: State,
    pub sums: S,
}

impl<S: ColumnSums> Held<S> {
    // A new detector over `rows`, which it clears. Refuses a window's size out of range, and memory of another length.
    pub fn new(rows: &mut [u8], w: usize) -> Result<Held<S>, Refusal>
        ensures { Begins S.kind w columns rows.old (answered_number result) (after (λ h. h.state) new_state result) rows.new (after (λ h. S.firsts h.sums) (replicate columns S.kind.sums.none) result) (after (λ h. S.seconds h.sums) (replicate columns S.kind.sums.none) result) }
    {
        detector::steps::check_window(w)?;
        if rows.len() != 2 * (w * COLUMNS) {
            return Err(Refusal::Memory);
        }
        window::clear(rows);
        Ok(Held {
            state: State::new(),
            sums: S::zeros(w),
        })
    }

    // Whether its state, sums and rows are as a call leaves them, behind the window's size.
    fn check(&self, rows: &[u8], w: usize) -> Result<(), Refusal>
        ensures { result ≡ state_check S.kind w columns self.now.state rows.now (S.firsts self.now.sums) (S.seconds self.now.sums) }
    {
        detector::steps::check_window(w)?;
        if !steps::is_valid(rows, w, self) {
            return Err(Refusal::Memory);
        }
        Ok(())
    }

    // Forgets the window. Refuses a window's size out of range, and a state, sums or rows that are not as a call leaves them.
    pub fn reset(&mut self, rows: &[u8], w: usize) -> Result<(), Refusal>
        ensures { Resets S.kind w columns self.old.state rows.now (S.firsts self.old.sums) (S.seconds self.old.sums) (answered_number result) self.new.state (S.firsts self.new.sums) (S.seconds self.new.sums) }
    {
        self.check(rows, w)?;
        self.state = detector::steps::reset_state(self.state);
        Ok(())
    }

    // One frame. A frame of count 0 repeats the verdict. Refuses as `reset` does, and a count above the columns.
    pub fn push(
        &mut self,
        rows: &mut [u8],
        w: usize,
        limits: Limits,
        frame: &Frame<S::Entry>,
    ) -> Result<Verdict, Refusal>
        ensures { Calls S.kind limits w columns self.old.state rows.old (S.firsts self.old.sums) (S.seconds self.old.sums) (S.entries frame.now.entries) frame.now.count frame.now.time (answered_number result) self.new.state rows.new (S.firsts self.new.sums) (S.seconds self.new.sums) (result_unwrap_or result Warming) }
    {
        self.check(rows, w)?;
        if COLUMNS < frame.count {
            return Err(Refusal::Count);
        }
        Ok(steps::push(rows, w, limits, self, frame))
    }
}
