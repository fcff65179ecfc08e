// The header read and written.
ghost use Rattle.std.specs.Prelude.{◌≡◌, ◌++◌, ◌≤◌, length, take, drop};
ghost use Rattle.room_memory.specs.Header.{header_len, settings_len, sum_at, state_at, small_bytes, column_bytes, state_bytes, Small, flags};

use crate::arrays::{numbers_at, put_numbers};
use crate::fields::{
    baseline_in, detector_in, fall_in, progress_in, put_baseline, put_detector, put_fall,
    put_progress,
};
use crate::{HEADER_LEN, RoomState};
use estimator::VitalsEstimator;
use sliding::Held;

// Reads the header.
pub fn load_header(m: &[u8; HEADER_LEN]) -> RoomState
    ensures { result ≡ state_at m.now }
{
    load(m)
}

// The same from a memory whose front is the header, for a caller that has tested its length.
pub fn load(m: &[u8]) -> RoomState
    requires { header_len ≤ length m.now }
    ensures { result ≡ state_at m.now }
{
    RoomState {
        tag: m[crate::TAG_AT],
        presence: Held {
            state: detector_in(m, crate::PRESENCE_AT),
            sums: presence::Sums {
                sum: numbers_at(m, crate::SUM_AT),
                sumsq: numbers_at(m, crate::SUMSQ_AT),
            },
        },
        phase: Held {
            state: detector_in(m, crate::PHASE_AT),
            sums: phase_detector::Sums {
                cos: numbers_at(m, crate::COS_AT),
                sin: numbers_at(m, crate::SIN_AT),
            },
        },
        breathing: VitalsEstimator {
            progress: progress_in(m, crate::BREATHING_AT),
            acc: numbers_at(m, crate::BREATHING_ACC_AT),
        },
        heart: VitalsEstimator {
            progress: progress_in(m, crate::HEART_AT),
            acc: numbers_at(m, crate::HEART_ACC_AT),
        },
        baseline: baseline_in(m, crate::BASELINE_AT),
        fall: fall_in(m, crate::FALL_AT),
    }
}

// Whether both flags are 0 or 1.
pub fn header_flags_valid(m: &[u8; HEADER_LEN]) -> bool
    ensures { result ≡ flags m.now }
{
    flags_valid(m)
}

// The same of a memory whose front is the header.
#[tactic(auto, unfolding(crate::specs::Header::flags))]
pub fn flags_valid(m: &[u8]) -> bool
    requires { header_len ≤ length m.now }
    ensures { result ≡ flags m.now }
{
    m[crate::PRESENCE_AT + crate::PRESENT_AT] <= 1 && m[crate::PHASE_AT + crate::PRESENT_AT] <= 1
}

// Writes the small states.
fn store_small(m: &mut [u8; HEADER_LEN], s: &RoomState)
    ensures { m.new ≡ take settings_len m.old ++ (small_bytes s.now ++ drop sum_at m.old) }
{
    m[crate::TAG_AT] = s.tag;
    put_detector(m, crate::PRESENCE_AT, s.presence.state);
    put_detector(m, crate::PHASE_AT, s.phase.state);
    put_progress(m, crate::BREATHING_AT, s.breathing.progress);
    put_progress(m, crate::HEART_AT, s.heart.progress);
    put_baseline(m, crate::BASELINE_AT, s.baseline);
    put_fall(m, crate::FALL_AT, s.fall);
}

// Writes the numbers of the columns.
fn store_columns(m: &mut [u8; HEADER_LEN], s: RoomState)
    ensures { m.new ≡ take sum_at m.old ++ column_bytes s.presence.sums s.phase.sums s.breathing.acc s.heart.acc }
{
    put_numbers(m, crate::SUM_AT, &s.presence.sums.sum);
    put_numbers(m, crate::SUMSQ_AT, &s.presence.sums.sumsq);
    put_numbers(m, crate::COS_AT, &s.phase.sums.cos);
    put_numbers(m, crate::SIN_AT, &s.phase.sums.sin);
    put_numbers(m, crate::BREATHING_ACC_AT, &s.breathing.acc);
    put_numbers(m, crate::HEART_ACC_AT, &s.heart.acc);
}

// Writes the header behind the settings. What is stored is what `load_header` gives.
pub fn store_header(m: &mut [u8; HEADER_LEN], s: RoomState)
    requires small { Small s }
    ensures m_after { m.new ≡ take settings_len m.old ++ state_bytes s }
    ensures m_after_2 { state_at m.new ≡ s }
    ensures long { length m.new ≡ header_len }
{
    store_small(m, &s);
    store_columns(m, s);
}

// The same in a memory whose front is the header. What stands behind it stays.
pub fn store(m: &mut [u8], s: RoomState)
    requires header_len_in_bounds { header_len ≤ length m.old }
    requires small { Small s }
    ensures m_after { m.new ≡ take settings_len m.old ++ (state_bytes s ++ drop header_len m.old) }
    ensures m_after_2 { state_at m.new ≡ s }
{
    if let Some(header) = m.first_chunk_mut::<HEADER_LEN>() {
        store_header(header, s);
    }
}
