// The caller has tested state and rows once a run.
ghost use Rattle.std.specs.Prelude.{◌≡◌, length};
ghost use Rattle.room_sensing.specs.Sensing.{features_in};
ghost use Rattle.room_state.specs.Rings.{rings_of, rows_length};
ghost use Rattle.room_state.specs.State.{GoodState};
ghost use Rattle.room_watch.specs.Watching.{Feeds};

use crate::falls::step_fall;
use crate::sample::{features_in, frame, phases_in};
use crate::told::rate_of;
use detector::Limits;
use estimator::steps::Plan;
use fingerprint::steps::Sound;
use room_memory::RoomState;
use room_sensing::answer::Watched;
use room_sensing::memory::ring_len;
use room_sensing::sample::Judged;
use room_sensing::settings::InRange;

// The normalised variance of a sample, which calibrates.
pub fn variance_in(sample: Judged<'_>) -> u32
    ensures { result ≡ (features_in sample.entry.bytes.now).variance }
{
    features_in(sample).variance
}

// One watched sample, to all detectors, each on its ring: what is found.
pub fn feed(rows: &mut [u8], settings: &InRange, s: &mut RoomState, sample: Judged<'_>) -> Watched
    requires { (length rows.old ≡ rows_length settings.now.settings) × GoodState settings.now.settings s.old (rings_of settings.now.settings rows.old) }
    ensures { Feeds settings.now.settings s.old rows.old sample.entry.bytes.now result s.new rows.new }
{
    let c = &settings.settings;
    let time = sample.time;
    let features = features_in(sample);
    let phases = phases_in(sample);
    let entries = features.amplitude;
    let amplitudes = frame(entries, features.count, time);
    let entries = phases.phase;
    let angles = frame(entries, phases.count, time);
    let (presence, rest) = rows.split_at_mut(ring_len(c.w));
    let (phase, rest) = rest.split_at_mut(ring_len(c.w));
    let (breathing, heart) = rest.split_at_mut(ring_len(c.n));
    let w = usize::from(c.w);
    let limits = Limits::from(c.presence);
    let verdict = sliding::steps::push(presence, w, limits, &mut s.presence, &amplitudes);
    let limits = Limits::from(c.phase);
    let other = sliding::steps::push(phase, w, limits, &mut s.phase, &angles);
    let n = usize::from(c.n);
    let used = &amplitudes.entries[..amplitudes.count];
    let config = c.breathing;
    let plan = Plan { n, config };
    let breath = estimator::steps::push(&mut s.breathing, breathing, plan, used, time);
    let plan = Plan { n, config: c.heart };
    let beat = estimator::steps::push(&mut s.heart, heart, plan, used, time);
    let wander = s.presence.state.wander;
    let baseline = Sound {
        baseline: s.baseline,
    };
    Watched {
        verdict: verdict.either(other),
        permille: wander as u16,
        ppm: s.phase.state.wander,
        breathing: rate_of(breath),
        heart: rate_of(beat),
        fall: step_fall(c.fall, &mut s.fall, verdict, wander, time),
        distance: baseline.distance(features.variance) as u16,
    }
}
