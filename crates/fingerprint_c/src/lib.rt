// Calls of fingerprint from C and Rust: an answer is a refusal's number, 0 for none, beside a value.
#![tactic(auto)]

ghost use Rattle.std.specs.Prelude.{◌≡◌};
ghost use Rattle.std.specs.Result.{result_unwrap_or};
ghost use Rattle.refusal.specs.Refusal.{answered_number};
ghost use Rattle.fingerprint.specs.Baseline.{calibrated_of, mean_answer, distance_answer, standing};

use csi::Features;
use fingerprint::Baseline;
use refusal::{Refusal, answered_number};

#[repr(C)]
#[derive(Clone, Copy)]
pub struct Next {
    pub refusal: u8,
    pub baseline: Baseline,
}

// One frame more; a refusal gives the baseline back as it was.
#[unsafe(no_mangle)]
pub extern "C" fn fingerprint_calibrate(b: Baseline, f: Features) -> Next
    ensures { (result.refusal ≡ answered_number (calibrated_of b f)) × (result.baseline ≡ standing b (calibrated_of b f)) }
{
    let answer = b.calibrate(f);
    Next {
        refusal: answered_number(answer),
        baseline: answer.unwrap_or(b),
    }
}

#[repr(C)]
#[derive(Clone, Copy)]
pub struct Number {
    pub refusal: u8,
    pub value: u32,
}

// A refusal has the value 0.
impl From<Result<u32, Refusal>> for Number {
    ghost from_gives = { λ answer n. (n.refusal ≡ answered_number answer) × (n.value ≡ result_unwrap_or answer 0) };

    fn from(answer: Result<u32, Refusal>) -> Self {
        Number {
            refusal: answered_number(answer),
            value: answer.unwrap_or(0),
        }
    }
}

#[unsafe(no_mangle)]
pub extern "C" fn fingerprint_mean(b: Baseline) -> Number
    ensures { (result.refusal ≡ answered_number (mean_answer b)) × (result.value ≡ result_unwrap_or (mean_answer b) 0) }
{
    b.mean().into()
}

#[unsafe(no_mangle)]
pub extern "C" fn fingerprint_distance(b: Baseline, f: Features) -> Number
    ensures { (result.refusal ≡ answered_number (distance_answer b f)) × (result.value ≡ result_unwrap_or (distance_answer b f) 0) }
{
    b.distance(f).into()
}
