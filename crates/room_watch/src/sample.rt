// What a judged sample gives the detectors.
ghost use Rattle.std.specs.Prelude.{◌≡◌};
ghost use Rattle.phase.specs.Phases.{frame_phases};
ghost use Rattle.room_sensing.specs.Sensing.{tag_of, iq_of, features_in};

use csi::Features;
use phase::Phases;
use room_sensing::sample::Judged;
use sliding::Frame;
use window::COLUMNS;

pub(crate) fn features_in(sample: Judged<'_>) -> Features
    ensures { result ≡ features_in sample.entry.bytes.now }
{
    let plain = csi::steps::features(sample.iq, sample.tag);
    csi::steps::normalised(plain)
}

pub(crate) fn phases_in(sample: Judged<'_>) -> Phases
    ensures { result ≡ frame_phases (iq_of sample.entry.bytes.now) (tag_of sample.entry.bytes.now) }
{
    phase::steps::phases(sample.iq, sample.tag)
}

// Amplitudes or angles as a frame of a detector.
pub(crate) fn frame<E: Copy>(entries: [E; COLUMNS], count: u8, time: u64) -> Frame<E>
    ensures { result ≡ record { entries = entries; count = count; time = time } }
{
    let count = usize::from(count);
    Frame {
        entries,
        count,
        time,
    }
}
