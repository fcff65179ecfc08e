// Replays recorded frames of the fall machine, by value and lent: two lines for each. `stdout` holds what the Rust answered.
#![tactic(auto)]

use fall::{CONFIG_LEN, FallConfig, FallDetector, FallEvent, Phase};
use num::steps::word_at;
use std::{fmt, io};

// The state, and what it holds in the Rust's order.
#[derive(Clone, Copy)]
struct State(Phase);

impl fmt::Display for State {
    fn fmt<W: fmt::Write>(&self, f: &mut fmt::Formatter<W>) -> fmt::Result {
        match self.0 {
            Phase::Idle => write!(f, " idle"),
            Phase::Active {
                since,
                quiet_since: None,
            } => write!(f, " active {since}"),
            Phase::Active {
                since,
                quiet_since: Some(quiet),
            } => write!(f, " active {since} {quiet}"),
            Phase::Burst { at, peak } => write!(f, " burst {at} {peak}"),
            Phase::Settling {
                burst_at,
                peak,
                still_since,
            } => write!(f, " settling {burst_at} {peak} {still_since}"),
            Phase::Refractory { until } => write!(f, " refractory {until}"),
        }
    }
}

// An event, or nothing.
#[derive(Clone, Copy)]
struct Event(Option<FallEvent>);

impl fmt::Display for Event {
    fn fmt<W: fmt::Write>(&self, f: &mut fmt::Formatter<W>) -> fmt::Result {
        match self.0 {
            None => Ok(()),
            Some(e) => write!(
                f,
                " fall {} {} {} {}",
                e.burst_at, e.peak_permille, e.still_since, e.at
            ),
        }
    }
}

// A line: the frame, the state after it and what it says.
fn line(
    rt: &impl Print,
    wander: u16,
    now: u64,
    phase: Phase,
    suspicion: Option<FallEvent>,
) -> io::Result<()> {
    println!(rt; "frame {wander} {now}{}{}", State(phase), Event(suspicion))
}

// The two machines: one goes by value, one is lent.
#[derive(Clone, Copy)]
struct Machines {
    value: FallDetector,
    lent: FallDetector,
}

impl Machines {
    fn new(config: FallConfig) -> Machines {
        let machine = FallDetector::new(config);
        Machines {
            value: machine,
            lent: machine,
        }
    }
}

// A frame: the wander, then the time.
const FRAME: usize = 10;

fn frame(rt: &impl Print, machines: &mut Machines, bytes: &[u8; FRAME]) -> io::Result<()> {
    let wander = word_at(bytes, 0);
    let now = word_at(bytes, 2);
    let pushed = machines.value.push(wander, now);
    machines.value = pushed.detector;
    line(rt, wander, now, pushed.detector.phase, pushed.suspicion)?;
    let suspicion = machines.lent.push_mut(wander, now);
    line(rt, wander, now, machines.lent.phase, suspicion)
}

// New settings, or a frame. Whether the cases go on: not after one of another length.
fn replay(rt: &impl Print, machines: &mut Machines, case: &[u8]) -> io::Result<bool> {
    if let Ok(config) = <&[u8; CONFIG_LEN]>::try_from(case) {
        println!(rt; "new")?;
        *machines = Machines::new(FallConfig::from(config));
        return Ok(true);
    }
    let Ok(bytes) = <&[u8; FRAME]>::try_from(case) else {
        return Ok(false);
    };
    frame(rt, machines, bytes)?;
    Ok(true)
}

fn main(rt: HostRuntime) -> io::Result<()> {
    let mut machines = Machines::new(FallConfig::normalised_default());
    let mut buf = [0u8; 64];
    for _ in 0..cases::MOST {
        let Some(case) = cases::next(&rt, &mut buf)? else {
            return Ok(());
        };
        if !replay(&rt, &mut machines, case)? {
            return Ok(());
        }
    }
    Ok(())
}
