// A boundary, and the test of a unit's memory that is made once a run.
ghost use Rattle.std.specs.Prelude.{◌≡◌, ◌≤◌, length};
ghost use Rattle.window.specs.Window.{max_rows};
ghost use Rattle.room_state.specs.Rings.{rings_of, rows_length};
ghost use Rattle.room_state.specs.State.{emptied_with, restarted_for, fresh_state, numbers_good, windows_good, is_good};

use detector::State;
use estimator::VitalsEstimator;
use fall::Phase;
use fall_words::Words;
use fingerprint::Baseline;
use room_memory::RoomState;
use room_sensing::memory::ring_len;
use room_sensing::settings::Settings;
use sliding::Held;

// The largest tag.
const MAX_TAG: u8 = 4;

// All as new but for the tag and the sums.
fn emptied(tag: u8, amplitudes: presence::Sums, angles: phase_detector::Sums) -> RoomState
    ensures { result ≡ emptied_with tag amplitudes angles }
{
    let rhythm = VitalsEstimator::blank();
    RoomState {
        tag,
        presence: Held {
            state: State::new(),
            sums: amplitudes,
        },
        phase: Held {
            state: State::new(),
            sums: angles,
        },
        breathing: rhythm,
        heart: rhythm,
        baseline: Baseline::new(),
        fall: Words::from(Phase::Idle),
    }
}

// What a boundary leaves, for samples of this tag; 0: for none yet.
pub fn restart(s: &mut RoomState, tag: u8)
    ensures { s.new ≡ restarted_for s.old tag }
{
    *s = emptied(tag, s.presence.sums, s.phase.sums);
}

// A new unit's state, over w rows of zeros in each window.
pub fn fresh(w: u16) -> RoomState
    requires { w ≤ max_rows }
    ensures { result ≡ fresh_state w }
{
    emptied(
        0,
        presence::steps::no_sums(),
        phase_detector::steps::zero_sums(usize::from(w)),
    )
}

// Whether both windows are in range and their sums are those of their rows.
fn windows_good(settings: &Settings, s: &RoomState, rows: &[u8]) -> bool
    requires { length rows.now ≡ rows_length settings.now }
    ensures { result ≡ windows_good settings.now s.now (rings_of settings.now rows.now) }
{
    let w = usize::from(settings.w);
    let ring = ring_len(settings.w);
    sliding::steps::is_valid(&rows[..ring], w, &s.presence)
        && sliding::steps::is_valid(&rows[ring..2 * ring], w, &s.phase)
}

// Whether all other numbers are in range.
fn numbers_good(settings: &Settings, s: &RoomState) -> bool
    ensures { result ≡ numbers_good settings.now s.now }
{
    let n = usize::from(settings.n);
    estimator::steps::is_valid(n, settings.breathing, &s.breathing)
        && estimator::steps::is_valid(n, settings.heart, &s.heart)
        && s.baseline.is_good()
        && Phase::try_from(s.fall).is_ok()
}

// Whether a state and its rows are as a run leaves them.
pub fn is_good(settings: &Settings, s: &RoomState, rows: &[u8]) -> bool
    requires { length rows.now ≡ rows_length settings.now }
    ensures { result ≡ is_good settings.now s.now (rings_of settings.now rows.now) }
{
    s.tag <= MAX_TAG && numbers_good(settings, s) && windows_good(settings, s, rows)
}
