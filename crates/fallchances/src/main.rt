// Prints how often chance makes a fall with the default settings, for wander values around their thresholds one second apart: for each number of
// frames and of events how many of all sequences make so many, as a count, as a fraction in lowest terms and as a probability.
#![tactic(auto)]

ghost use Rattle.std.specs.Prelude.{◌≤◌, ◌<◌};

use chance::FRAMES;
use fall::FallConfig;
use std::io;

// Still, neither still nor active, active, and a burst.
const CHOICES: [u16; 4] = [30, 31, 32, 232];

const SECOND: u64 = 1000000;

// 12 places behind the point, rounded down.
const PLACES: u128 = 1000000000000;

// The greatest number that divides both.
fn divisor(a: u64, b: u64) -> u64
    requires { 0 < a }
    ensures { 0 < result }
{
    let (mut x, mut y) = (a, b);
    while 0 < y {
        (x, y) = (y, x % y);
    }
    x
}

// How many of all sequences.
#[derive(Clone, Copy)]
struct Share {
    count: u64,
    total: u64,
    ghost some: { 0 < total },
}

impl Share {
    // In lowest terms.
    fn fraction(self, rt: &impl Print) -> io::Result<()> {
        let Share { count, total } = self;
        let d = divisor(total, count);
        print!(rt; " fraction {}/{}", count / d, total / d)
    }

    fn probability(self, rt: &impl Print) -> io::Result<()> {
        let Share { count, total } = self;
        let places = u128::from(count % total) * PLACES / u128::from(total);
        println!(rt; " probability {}.{places:012}", count / total)
    }
}

fn line(rt: &impl Print, frames: usize, events: usize, share: Share) -> io::Result<()> {
    let Share { count, total } = share;
    print!(rt; "frames {frames} events {events} count {count} of {total}")?;
    share.fraction(rt)?;
    share.probability(rt)
}

// The numbers of events that come up.
fn lines(rt: &impl Print, frames: usize) -> io::Result<()>
    requires { frames ≤ 24 }
{
    let config = FallConfig::normalised_default();
    let total = 4u64.pow(frames as u32);
    if let Ok(counts) = chance::count(config, &CHOICES, SECOND, frames) {
        for (events, &count) in counts.iter().enumerate() {
            if 0 < count {
                line(rt, frames, events, Share { count, total })?;
            }
        }
    }
    Ok(())
}

fn main(rt: HostRuntime) -> io::Result<()> {
    for frames in 0..=FRAMES {
        lines(&rt, frames)?;
    }
    Ok(())
}
