// The steps of a state, in the order of a push, and the test of a state. The caller has tested settings and state.
ghost use Rattle.std.specs.Prelude.{◌≡◌, true, ◌<◌, ◌≤◌};
ghost use Rattle.window.specs.Window.{columns};
ghost use Rattle.detector.specs.Decision.{present_after, last_after, verdict_at};
ghost use Rattle.detector.specs.State.{reset_state, start_state, next_state, judged_state, is_placed};
ghost use Rattle.detector.specs.Calls.{is_window, window_check};
ghost use Rattle.detector.specs.Words.{is_state, state_of};

use crate::{Limits, State, Verdict, Words};
use refusal::Refusal;
use window::{COLUMNS, MAX_ROWS};

// Whether there is presence at this wander.
fn present_after(limits: Limits, now: u64, wander: u32, present: bool, last: u64) -> bool
    ensures { result ≡ present_after limits now wander present last }
{
    if limits.on <= wander {
        return true;
    }
    present && (limits.off < wander || now.saturating_sub(last) < limits.hold)
}

fn last_after(limits: Limits, now: u64, wander: u32, last: u64) -> u64
    ensures { result ≡ last_after limits now wander last }
{
    if limits.on <= wander { now } else { last }
}

// Forgets the window. The time of the last motion stays, as in the Rust.
pub fn reset_state(s: State) -> State
    ensures { result ≡ reset_state s }
{
    State {
        last_motion: s.last_motion,
        ..State::new()
    }
}

// A frame of another count restarts the window: the rows and their sums stay.
pub fn start_state(s: State, count: usize) -> State
    ensures { result ≡ start_state s count }
{
    if s.filled == 0 || s.count == count {
        return State { count, ..s };
    }
    State {
        count,
        ..reset_state(s)
    }
}

// One row more.
pub fn next_state(w: usize, s: State) -> State
    requires { (s.next < w) × (s.filled ≤ w) }
    ensures { result ≡ next_state w s }
{
    State {
        next: (s.next + 1) % w,
        filled: s.filled.saturating_add(1).min(w),
        ..s
    }
}

// The decision at the wander of a full window.
pub fn decide(limits: Limits, now: u64, wander: u32, s: State) -> State
    ensures { result ≡ judged_state limits now wander s }
{
    State {
        wander,
        present: present_after(limits, now, wander, s.present, s.last_motion),
        last_motion: last_after(limits, now, wander, s.last_motion),
        ..s
    }
}

// The verdict, with `unit` of wander to a step of motion.
pub fn verdict_now(w: usize, unit: u32, s: State) -> Verdict
    requires { 0 < unit }
    ensures { result ≡ verdict_at w unit s.filled s.present s.wander }
{
    if s.filled < w {
        return Verdict::Warming;
    }
    if !s.present {
        return Verdict::Absent;
    }
    Verdict::Present {
        motion: (s.wander / unit).min(255) as u8,
    }
}

// Whether the window has a size that the settings may name.
pub fn is_window(w: usize) -> bool
    ensures { result ≡ is_window w }
{
    (1..=MAX_ROWS).contains(&w)
}

// The same, with the refusal.
pub fn check_window(w: usize) -> Result<(), Refusal>
    ensures { result ≡ window_check w }
{
    if !is_window(w) {
        return Err(Refusal::Settings);
    }
    Ok(())
}

// Whether a state is in range over w rows, where no wander is above `top`.
pub fn in_range(w: usize, top: u32, s: State) -> bool
    ensures { result ≡ is_placed w columns top s }
{
    s.next < w && s.filled <= w && s.count <= COLUMNS && s.wander <= top
}

// The state that numbers are, where they are known to be one: it cannot fail, as `try_from` can.
#[tactic(auto, unfolding(crate::specs::Words::state_for))]
pub fn state_of(words: Words) -> State
    requires { is_state words ≡ true }
    ensures { result ≡ state_of words }
{
    State::try_from(words).unwrap()
}
