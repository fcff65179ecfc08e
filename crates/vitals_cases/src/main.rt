// Replays recorded lags and frames: a line for each case. `stdout` holds what the Rust answered.
#![tactic(auto)]

ghost use Rattle.std.specs.Prelude.{◌≤◌};

use estimator::{Vitals, VitalsEstimator};
use num::steps::word_at;
use std::io;
use vitals::band::Band;
use vitals::config::VitalsConfig;
use window::COLUMNS;

// The bytes of a band with its rate, of an estimator's settings, and of a frame before its amplitudes. A reset has none, a
// frame an odd number.
const BAND: usize = 12;

const SETTINGS: usize = 22;

const HEAD: usize = 5;

// The most block means of a replayed estimator, and their bytes.
const MOST_BLOCKS: usize = 128;

const ROOM: usize = 2 * MOST_BLOCKS * COLUMNS;

// An estimator: its rows, blocks, settings and state.
#[derive(Drop)]
struct Run {
    rows: [u8; ROOM],
    n: usize,
    config: VitalsConfig,
    state: VitalsEstimator,
}

fn lags(rt: &impl Print, bytes: &[u8; BAND]) -> io::Result<()> {
    let band = Band {
        lo_mhz: word_at(bytes, 0),
        hi_mhz: word_at(bytes, 4),
    };
    match band.lags(word_at(bytes, 8)) {
        Ok(lags) => print!(rt; "lags {} {}", lags.lo, lags.hi),
        Err(refusal) => print!(rt; "{refusal}"),
    }
}

fn settings(bytes: &[u8; SETTINGS]) -> VitalsConfig {
    VitalsConfig {
        decim: word_at(bytes, 2),
        rate_hz: word_at(bytes, 4),
        band: Band {
            lo_mhz: word_at(bytes, 8),
            hi_mhz: word_at(bytes, 12),
        },
        update_every: word_at(bytes, 16),
        accept_permille: word_at(bytes, 18),
        highpass: word_at(bytes, 20),
    }
}

// The bytes of n blocks' rows, or of all there are.
fn bytes_of(n: usize) -> usize
    ensures { result ≤ 16384 }
{
    2 * (n.min(MOST_BLOCKS) * COLUMNS)
}

// The estimate, if one is due.
fn estimate(rt: &impl Print, answer: Option<Vitals>) -> io::Result<()> {
    let Some(v) = answer else {
        return print!(rt; "-");
    };
    print!(rt;
        "estimate {} {} {} {}",
        v.bpm_x10, v.confidence, v.lag_x16, v.at
    )?;
    if v.accepted {
        print!(rt; " accepted")?;
    }
    Ok(())
}

impl Run {
    // A new estimator, or the one before where the settings are refused.
    fn begin(&mut self, rt: &impl Print, bytes: &[u8; SETTINGS]) -> io::Result<()> {
        let n = usize::from(word_at::<u16>(bytes, 0));
        let config = settings(bytes);
        match VitalsEstimator::new(&self.rows[..bytes_of(n)], n, config) {
            Ok(state) => {
                self.n = n;
                self.config = config;
                self.state = state;
                print!(rt; "new")
            }
            Err(refusal) => print!(rt; "{refusal}"),
        }
    }

    fn reset(&mut self, rt: &impl Print) -> io::Result<()> {
        let rows = &self.rows[..bytes_of(self.n)];
        match self.state.reset(rows, self.n, self.config) {
            Ok(()) => print!(rt; "reset"),
            Err(refusal) => print!(rt; "{refusal}"),
        }
    }

    // A frame: its time and its count, and its amplitudes.
    fn frame(&mut self, rt: &impl Print, head: &[u8; HEAD], amplitudes: &[u8]) -> io::Result<()> {
        let rows = &mut self.rows[..];
        let answer = self.state.push(
            &mut rows[..bytes_of(self.n)],
            self.n,
            self.config,
            cases::words(amplitudes),
            usize::from(head[4]),
            u64::from(word_at::<u32>(head, 0)),
        );
        match answer {
            Ok(answer) => estimate(rt, answer),
            Err(refusal) => print!(rt; "{refusal}"),
        }
    }

    // A case is of the kind that its length tells.
    fn line(&mut self, rt: &impl Print, bytes: &[u8]) -> io::Result<()> {
        if let Ok(band) = <&[u8; BAND]>::try_from(bytes) {
            return lags(rt, band);
        }
        if let Ok(settings) = <&[u8; SETTINGS]>::try_from(bytes) {
            return self.begin(rt, settings);
        }
        match bytes.split_first_chunk::<HEAD>() {
            Some((head, amplitudes)) => self.frame(rt, head, amplitudes),
            None if bytes.is_empty() => self.reset(rt),
            None => Ok(()),
        }
    }
}

fn main(rt: HostRuntime) -> io::Result<()> {
    let mut run = Run {
        rows: [0; ROOM],
        n: MOST_BLOCKS,
        config: VitalsConfig::breathing(50),
        state: VitalsEstimator::blank(),
    };
    cases::steps::each::<256, _>(&rt, |case| {
        run.line(&rt, case)?;
        println!(rt; "")
    })
}
