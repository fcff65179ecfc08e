// What presence and phase share (csi.rs, phase.rs): the verdict, the limits, and the state beside the ring and its sums.
#![tactic(auto)]

ghost use Rattle.std.specs.Prelude.{◌≡◌};
ghost use Rattle.detector.specs.Verdict.{verdict_tag, motion_of, either_of};
ghost use Rattle.detector.specs.State.{new_state};
ghost use Rattle.detector.specs.Words.{words_of, state_for};

use refusal::Refusal;

pub mod steps;

// What a detector concluded.
#[derive(Clone, Copy, Debug, PartialEq, Eq, Hash)]
pub enum Verdict {
    Warming,
    Absent,
    Present { motion: u8 },
}

impl Verdict {
    // Its number: 0 warming, 1 absent, 2 present.
    pub fn tag(self) -> u8
        ensures { result ≡ verdict_tag self }
    {
        match self {
            Verdict::Warming => 0,
            Verdict::Absent => 1,
            Verdict::Present { motion: _ } => 2,
        }
    }

    // The motion level, 0 unless present.
    pub fn motion(self) -> u8
        ensures { result ≡ motion_of self }
    {
        match self {
            Verdict::Warming | Verdict::Absent => 0,
            Verdict::Present { motion } => motion,
        }
    }

    // One verdict from two: present if either is, with the larger motion; warming if either is; else absent.
    pub fn either(self, other: Verdict) -> Verdict
        ensures { result ≡ either_of self other }
    {
        match (self, other) {
            (Verdict::Present { motion: a }, Verdict::Present { motion: b }) => Verdict::Present {
                motion: a.max(b),
            },
            (Verdict::Present { motion: _ }, _) => self,
            (_, Verdict::Present { motion: _ }) => other,
            (Verdict::Warming, _) => self,
            (Verdict::Absent, _) => other,
        }
    }
}

// The wander from which on there is presence, the one down to which it ends, and the shortest time, in microseconds,
// from the last motion to absence. Permille or parts per million: the decision is the same.
#[derive(Clone, Copy, Debug, PartialEq, Eq, Hash)]
pub struct Limits {
    pub on: u32,
    pub off: u32,
    pub hold: u64,
}

// The state beside the ring and its sums: the columns in use, the rows since the last restart, the slot to write
// next, the last wander, the verdict, and the time of the last motion.
#[derive(Clone, Copy, Debug, PartialEq, Eq, Hash)]
pub struct State {
    pub count: usize,
    pub filled: usize,
    pub next: usize,
    pub wander: u32,
    pub present: bool,
    pub last_motion: u64,
}

impl State {
    pub fn new() -> State
        ensures { result ≡ new_state }
    {
        State {
            count: 0,
            filled: 0,
            next: 0,
            wander: 0,
            present: false,
            last_motion: 0,
        }
    }
}

// A state as numbers, as C has it: `present` is 1 where there is presence, else 0.
#[repr(C)]
#[derive(Clone, Copy, Debug, PartialEq, Eq, Hash)]
pub struct Words {
    pub count: usize,
    pub filled: usize,
    pub next: usize,
    pub wander: u32,
    pub present: u8,
    pub last_motion: u64,
}

impl From<State> for Words {
    ghost from_gives = { λ s x. x ≡ words_of s };

    fn from(s: State) -> Words {
        Words {
            count: s.count,
            filled: s.filled,
            next: s.next,
            wander: s.wander,
            present: u8::from(s.present),
            last_motion: s.last_motion,
        }
    }
}

// The state that numbers are: a byte that is neither 0 nor 1 is refused.
impl TryFrom<Words> for State {
    type Error = Refusal;

    ghost try_from_gives = { λ x r. r ≡ state_for x };

    fn try_from(x: Words) -> Result<State, Refusal> {
        if 1 < x.present {
            return Err(Refusal::Memory);
        }
        Ok(State {
            count: x.count,
            filled: x.filled,
            next: x.next,
            wander: x.wander,
            present: x.present == 1,
            last_motion: x.last_motion,
        })
    }
}
