// Falls (fall.rs): a body moves, its wander jumps above that of walking, and soon after it lies still for long. Each frame feeds the
// wander of presence and its time. Settings and times can be any; a clock that went back counts as no time.
#![tactic(auto)]

ghost use Rattle.std.specs.Prelude.{◌≡◌, ◌-◌};
ghost use Rattle.fall.specs.Fall.{normalised_default, new_detector, silent, moving, in_refractory, in_idle, in_active, in_burst, in_settling, pushed};
ghost use Rattle.fall.specs.Promises.{Lent};

pub mod steps;

// How many bytes the settings take in memory.
pub const CONFIG_LEN: usize = 46;

// Thresholds are permille of wander, durations microseconds.
#[repr(C)]
#[derive(Clone, Copy, Debug, PartialEq, Eq)]
pub struct FallConfig {
    pub active_permille: u16,
    pub burst_permille: u16,
    pub still_permille: u16,
    pub min_active: u64,
    pub quiet_grace: u64,
    pub settle: u64,
    pub still_for: u64,
    pub refractory: u64,
}

// The settings as bytes (docs/LAYOUT.md).
impl From<&[u8; CONFIG_LEN]> for FallConfig {
    ghost use Rattle.fall.specs.Config.{config_at};

    ghost from_gives = { λ bytes c. c ≡ config_at bytes.now 0 };

    fn from(bytes: &[u8; CONFIG_LEN]) -> FallConfig {
        steps::config_at(bytes, 0)
    }
}

impl FallConfig {
    pub fn normalised_default() -> FallConfig
        ensures { result ≡ normalised_default }
    {
        FallConfig {
            active_permille: 32,
            burst_permille: 232,
            still_permille: 30,
            min_active: 2000000,
            quiet_grace: 3000000,
            settle: 3000000,
            still_for: 10000000,
            refractory: 60000000,
        }
    }
}

// Of a fall: the burst and its peak, since when it is still, and the time of the frame that said it.
#[derive(Clone, Copy, Debug, PartialEq, Eq)]
pub struct FallEvent {
    pub burst_at: u64,
    pub peak_permille: u16,
    pub still_since: u64,
    pub at: u64,
}

#[derive(Clone, Copy, Debug, PartialEq, Eq)]
pub enum Phase {
    Idle,
    Active {
        since: u64,
        quiet_since: Option<u64>,
    },
    Burst {
        at: u64,
        peak: u16,
    },
    Settling {
        burst_at: u64,
        peak: u16,
        still_since: u64,
    },
    Refractory {
        until: u64,
    },
}

impl Phase {
    // Moving, and not quiet.
    fn moving(since: u64) -> Phase
        ensures { result ≡ moving since }
    {
        Phase::Active {
            since,
            quiet_since: None,
        }
    }
}

#[derive(Clone, Copy)]
struct Frame {
    wander: u16,
    time: u64,
}

impl Frame {
    // The time since then.
    fn since(self, then: u64) -> u64
        ensures { result ≡ self.time - then }
    {
        self.time.saturating_sub(then)
    }
}

#[derive(Clone, Copy, Debug, PartialEq, Eq)]
pub struct FallDetector {
    pub config: FallConfig,
    pub phase: Phase,
}

// The detector after a frame, and what the frame says.
#[derive(Clone, Copy, Debug, PartialEq, Eq)]
pub struct Pushed {
    pub detector: FallDetector,
    pub suspicion: Option<FallEvent>,
}

impl FallDetector {
    pub fn new(config: FallConfig) -> FallDetector
        ensures { result ≡ new_detector config }
    {
        FallDetector {
            config,
            phase: Phase::Idle,
        }
    }

    // As new, with its settings.
    pub fn reset(self) -> FallDetector
        ensures { result ≡ new_detector self.config }
    {
        FallDetector::new(self.config)
    }

    // A frame: its wander and its time.
    #[tactic(auto, unfolding(crate::specs::Fall::step_of, crate::specs::Fall::pushed))]
    pub fn push(self, wander: u16, now: u64) -> Pushed
        ensures { result ≡ pushed self wander now }
    {
        let frame = Frame { wander, time: now };
        match self.phase {
            Phase::Refractory { until } => self.silent(refractory(until, frame)),
            Phase::Idle => self.silent(self.idle(frame)),
            Phase::Active { since, quiet_since } => {
                self.silent(self.active(since, quiet_since, frame))
            }
            Phase::Burst { at, peak } => self.silent(self.burst(at, peak, frame)),
            Phase::Settling {
                burst_at,
                peak,
                still_since,
            } => self.settling(burst_at, peak, still_since, frame),
        }
    }

    // The same, of a detector that is lent.
    pub fn push_mut(&mut self, wander: u16, now: u64) -> Option<FallEvent>
        ensures { Lent self.old wander now self.new result }
    {
        let pushed = self.push(wander, now);
        *self = pushed.detector;
        pushed.suspicion
    }

    // On to a state, with nothing said.
    fn silent(self, phase: Phase) -> Pushed
        ensures { result ≡ silent self.config phase }
    {
        Pushed {
            detector: FallDetector { phase, ..self },
            suspicion: None,
        }
    }

    fn idle(self, frame: Frame) -> Phase
        ensures { result ≡ in_idle self.config frame.wander frame.time }
    {
        if frame.wander >= self.config.active_permille {
            Phase::moving(frame.time)
        } else {
            Phase::Idle
        }
    }

    fn active(self, since: u64, quiet_since: Option<u64>, frame: Frame) -> Phase
        ensures { result ≡ in_active self.config since quiet_since frame.wander frame.time }
    {
        let c = self.config;
        if frame.wander >= c.burst_permille && frame.since(since) >= c.min_active {
            return Phase::Burst {
                at: frame.time,
                peak: frame.wander,
            };
        }
        if frame.wander > c.still_permille {
            return Phase::moving(since);
        }
        let quiet = quiet_since.unwrap_or(frame.time);
        if frame.since(quiet) >= c.quiet_grace {
            // Quiet for long enough: the motion is over.
            Phase::Idle
        } else {
            Phase::Active {
                since,
                quiet_since: Some(quiet),
            }
        }
    }

    fn burst(self, at: u64, peak: u16, frame: Frame) -> Phase
        ensures { result ≡ in_burst self.config at peak frame.wander frame.time }
    {
        if frame.wander <= self.config.still_permille {
            return Phase::Settling {
                burst_at: at,
                peak,
                still_since: frame.time,
            };
        }
        if frame.since(at) > self.config.settle {
            // In motion for too long after the burst.
            Phase::moving(frame.time)
        } else {
            Phase::Burst {
                at,
                peak: peak.max(frame.wander),
            }
        }
    }

    fn settling(self, burst_at: u64, peak: u16, still_since: u64, frame: Frame) -> Pushed
        ensures { result ≡ in_settling self.config burst_at peak still_since frame.wander frame.time }
    {
        let c = self.config;
        if frame.wander >= c.active_permille {
            // In motion again.
            return self.silent(Phase::moving(frame.time));
        }
        if frame.wander <= c.still_permille && frame.since(still_since) >= c.still_for {
            let until = frame.time.saturating_add(c.refractory);
            return Pushed {
                detector: FallDetector {
                    phase: Phase::Refractory { until },
                    ..self
                },
                suspicion: Some(FallEvent {
                    burst_at,
                    peak_permille: peak,
                    still_since,
                    at: frame.time,
                }),
            };
        }
        // Not yet for long enough, or neither still nor active: the stillness goes on from when it began.
        self.silent(Phase::Settling {
            burst_at,
            peak,
            still_since,
        })
    }
}

fn refractory(until: u64, frame: Frame) -> Phase
    ensures { result ≡ in_refractory until frame.time }
{
    if frame.time >= until {
        Phase::Idle
    } else {
        Phase::Refractory { until }
    }
}
