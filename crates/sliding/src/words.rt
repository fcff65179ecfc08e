// The calls over a state as numbers, for Rust and C. Numbers that stand for no state are refused as memory, behind the window's size, and come back as they were.
ghost use Rattle.std.specs.Prelude.{◌≡◌};
ghost use Rattle.std.specs.Result.{result_unwrap_or};
ghost use Rattle.refusal.specs.Refusal.{answered_number};
ghost use Rattle.window.specs.Window.{columns};
ghost use Rattle.detector.specs.Verdict.{verdict_tag, motion_of};
ghost use Rattle.detector.specs.declared.Verdict.TheVariants.{Warming};
ghost use Rattle.detector.specs.Words.{ResetsInWords, CallsInWords};
ghost use Rattle.sliding.specs.Answers.{words_check};

use crate::steps::ColumnSums;
use crate::{Frame, Held};
use detector::{Limits, State, Verdict, Words};
use refusal::Refusal;

// The state that numbers are, behind the window's size.
fn state_in(w: usize, words: Words) -> Result<State, Refusal>
    ensures { result ≡ words_check w words }
{
    detector::steps::check_window(w)?;
    State::try_from(words)
}

// A reset of the numbers in place.
pub fn reset<S: ColumnSums>(
    rows: &[u8],
    w: usize,
    words: &mut Words,
    sums: &mut S,
) -> Result<(), Refusal>
    ensures { ResetsInWords S.kind w columns words.old rows.now (S.firsts sums.old) (S.seconds sums.old) (answered_number result) words.new (S.firsts sums.new) (S.seconds sums.new) }
{
    let state = state_in(w, *words)?;
    let mut held = Held { state, sums: *sums };
    let answer = held.reset(rows, w);
    *words = Words::from(held.state);
    *sums = held.sums;
    answer
}

// A push of them.
pub fn push<S: ColumnSums>(
    rows: &mut [u8],
    w: usize,
    limits: Limits,
    words: &mut Words,
    sums: &mut S,
    frame: &Frame<S::Entry>,
) -> Result<Verdict, Refusal>
    ensures { CallsInWords S.kind limits w columns words.old rows.old (S.firsts sums.old) (S.seconds sums.old) (S.entries frame.now.entries) frame.now.count frame.now.time (answered_number result) words.new rows.new (S.firsts sums.new) (S.seconds sums.new) (verdict_tag (result_unwrap_or result Warming)) (motion_of (result_unwrap_or result Warming)) }
{
    let state = state_in(w, *words)?;
    let mut held = Held { state, sums: *sums };
    let answer = held.push(rows, w, limits, frame);
    *words = Words::from(held.state);
    *sums = held.sums;
    answer
}
