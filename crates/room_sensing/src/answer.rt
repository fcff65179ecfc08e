// The answer to one record, and its bytes (docs/LAYOUT.md).
ghost use Rattle.std.specs.Prelude.{◌≡◌};
ghost use Rattle.unit.specs.Answers.{refused};
ghost use Rattle.unit.specs.Sensing.{bytes_of};
ghost use Rattle.room_sensing.specs.Sensing.{room};
ghost use Rattle.room_sensing.specs.Answers.{rate_bytes, watched_bytes, learnt_bytes, reset_bytes, answer_of};

use detector::Verdict;
use num::steps::put_word;
use refusal::Refusal;

// How many bytes an answer is.
pub const ANSWER_LEN: usize = 24;

// A rate: none is due, it is not accepted, or ten times the rate a minute.
#[derive(Clone, Copy)]
pub enum Rate {
    NotDue,
    NotAccepted,
    Accepted(u16),
}

// What a watched sample gives.
#[derive(Clone, Copy)]
pub struct Watched {
    pub verdict: Verdict,
    pub permille: u16,
    pub ppm: u32,
    pub breathing: Rate,
    pub heart: Rate,
    pub fall: bool,
    pub distance: u16,
}

#[derive(Clone, Copy)]
pub enum Answer {
    Refused(Refusal),
    Watch(Watched),
    Calibrate { frames: u32, mean: u32 },
    Reset,
}

// 0 not due, 1 not accepted, 2 accepted; then the rate, 0 unless accepted.
fn rate_bytes(rate: Rate) -> [u8; 3]
    ensures { result ≡ rate_bytes rate }
{
    match rate {
        Rate::NotDue => [0, 0, 0],
        Rate::NotAccepted => [1, 0, 0],
        Rate::Accepted(bpm) => {
            let [low, high] = bpm.to_le_bytes();
            [2, low, high]
        }
    }
}

// The bytes of the answer to a record that is refused by this number, whether or not it is one of Refusal's.
#[tactic(auto, unfolding(crate::specs::Answers::refused_bytes))]
pub fn refused(number: u8, at: usize) -> [u8; ANSWER_LEN]
    ensures { result ≡ bytes_of room at (refused number) }
{
    let mut out = [0; ANSWER_LEN];
    out[1] = number;
    put_word(&mut out, 2, at as u64);
    out
}

#[tactic(auto, unfolding(crate::specs::Answers::watched_bytes))]
fn watched_bytes(w: Watched) -> [u8; ANSWER_LEN]
    ensures { result ≡ watched_bytes w }
{
    let mut out = [0; ANSWER_LEN];
    out[0] = 1;
    out[1] = w.verdict.tag();
    out[2] = w.verdict.motion();
    out[3] = u8::from(w.fall);
    put_word(&mut out, 4, w.permille);
    put_word(&mut out, 6, w.distance);
    put_word(&mut out, 8, w.ppm);
    out[12..15].copy_from_slice(&rate_bytes(w.breathing));
    out[15..18].copy_from_slice(&rate_bytes(w.heart));
    out
}

#[tactic(auto, unfolding(crate::specs::Answers::learnt_bytes))]
fn learnt_bytes(frames: u32, mean: u32) -> [u8; ANSWER_LEN]
    ensures { result ≡ learnt_bytes frames mean }
{
    let mut out = [0; ANSWER_LEN];
    out[0] = 2;
    put_word(&mut out, 1, frames);
    put_word(&mut out, 5, mean);
    out
}

#[tactic(auto, unfolding(crate::specs::Answers::reset_bytes))]
fn reset_bytes() -> [u8; ANSWER_LEN]
    ensures { result ≡ reset_bytes }
{
    let mut out = [0; ANSWER_LEN];
    out[0] = 3;
    out
}

// The bytes of an answer to the record that stands at byte `at` of its run.
pub fn encode(at: usize, answer: Answer) -> [u8; ANSWER_LEN]
    ensures { result ≡ bytes_of room at (answer_of answer) }
{
    match answer {
        Answer::Refused(refusal) => refused(refusal.number(), at),
        Answer::Watch(w) => watched_bytes(w),
        Answer::Calibrate { frames, mean } => learnt_bytes(frames, mean),
        Answer::Reset => reset_bytes(),
    }
}
