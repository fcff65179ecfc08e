// The state of the fall machine as numbers, to be kept in memory: a tag and three numbers. A number that a state does not use is 0.
#![tactic(auto)]

ghost use Rattle.std.specs.Prelude.{◌≡◌};
ghost use Rattle.fall_words.specs.Stored.{tag_number, Tags, words, words_of, phase_of, loaded};

use fall::Phase;
use refusal::Refusal;

// The kinds of state that have words of their own.
#[derive(Clone, Copy, Debug, PartialEq, Eq, Hash)]
pub enum Tag {
    Idle,
    Active,
    Quietened,
    Burst,
    Settling,
    Refractory,
}

impl TryFrom<u8> for Tag {
    type Error = Refusal;

    ghost try_from_gives = { Tags };

    fn try_from(number: u8) -> Result<Tag, Refusal> {
        match number {
            0 => Ok(Tag::Idle),
            1 => Ok(Tag::Active),
            2 => Ok(Tag::Quietened),
            3 => Ok(Tag::Burst),
            4 => Ok(Tag::Settling),
            5 => Ok(Tag::Refractory),
            _ => Err(Refusal::Memory),
        }
    }
}

// Active since a; quietened: active since a, quiet since b; burst at a; settling: burst at a, still since b; refractory until a.
#[repr(C)]
#[derive(Clone, Copy, Debug, PartialEq, Eq)]
pub struct Words {
    pub tag: u8,
    pub peak: u16,
    pub a: u64,
    pub b: u64,
}

impl Words {
    fn new(tag: Tag, peak: u16, a: u64, b: u64) -> Words
        ensures { result ≡ words (tag_number tag) peak a b }
    {
        Words {
            tag: tag as u8,
            peak,
            a,
            b,
        }
    }
}

impl From<Phase> for Words {
    ghost from_gives = { λ phase words. words ≡ words_of phase };

    #[tactic(auto, unfolding(crate::specs::Stored::words_of))]
    fn from(phase: Phase) -> Words {
        match phase {
            Phase::Idle => Words::new(Tag::Idle, 0, 0, 0),
            Phase::Active {
                since,
                quiet_since: None,
            } => Words::new(Tag::Active, 0, since, 0),
            Phase::Active {
                since,
                quiet_since: Some(quiet),
            } => Words::new(Tag::Quietened, 0, since, quiet),
            Phase::Burst { at, peak } => Words::new(Tag::Burst, peak, at, 0),
            Phase::Settling {
                burst_at,
                peak,
                still_since,
            } => Words::new(Tag::Settling, peak, burst_at, still_since),
            Phase::Refractory { until } => Words::new(Tag::Refractory, 0, until, 0),
        }
    }
}

impl Words {
    // The state that the words stand for, be they legal or not.
    #[tactic(auto, unfolding(crate::specs::Stored::phase_of))]
    pub fn phase(self) -> Phase
        ensures { result ≡ phase_of self }
    {
        let Words { tag, peak, a, b } = self;
        match Tag::try_from(tag) {
            Ok(Tag::Active) => Phase::Active {
                since: a,
                quiet_since: None,
            },
            Ok(Tag::Quietened) => Phase::Active {
                since: a,
                quiet_since: Some(b),
            },
            Ok(Tag::Burst) => Phase::Burst { at: a, peak },
            Ok(Tag::Settling) => Phase::Settling {
                burst_at: a,
                peak,
                still_since: b,
            },
            Ok(Tag::Refractory) => Phase::Refractory { until: a },
            Ok(Tag::Idle) | Err(_) => Phase::Idle,
        }
    }
}

// Refused unless storing what the words load gives them again.
impl TryFrom<Words> for Phase {
    type Error = Refusal;

    ghost try_from_gives = { λ words r. r ≡ loaded words };

    #[tactic(auto, unfolding(crate::specs::Stored::legal))]
    fn try_from(words: Words) -> Result<Phase, Refusal> {
        let phase = words.phase();
        if Words::from(phase) == words {
            Ok(phase)
        } else {
            Err(Refusal::Memory)
        }
    }
}
