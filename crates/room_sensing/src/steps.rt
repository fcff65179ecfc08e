// The settings that bytes hold (docs/LAYOUT.md), for a caller that has tested their length.
ghost use Rattle.std.specs.Prelude.{◌≡◌, ◌+◌, ◌≤◌, length};
ghost use Rattle.room_memory.specs.Header.{settings_len};
ghost use Rattle.room_sensing.specs.Settings.{presence_at, phase_at, rhythm_at, settings_of};

use crate::settings::Settings;
use fall::steps::config_at;
use num::steps::word_at;
use vitals::band::Band;
use vitals::config::VitalsConfig;

// Where each detector's settings stand.
const PRESENCE_AT: usize = 4;

const PHASE_AT: usize = 16;

const BREATHING_AT: usize = 32;

const HEART_AT: usize = 52;

const FALL_AT: usize = 72;

fn presence_at(bytes: &[u8], at: usize) -> presence::Config
    requires { at + 12 ≤ length bytes.now }
    ensures { result ≡ presence_at bytes.now at }
{
    presence::Config {
        on_permille: word_at(bytes, at),
        off_permille: word_at(bytes, at + 2),
        hold: word_at(bytes, at + 4),
    }
}

fn phase_at(bytes: &[u8], at: usize) -> phase_detector::Config
    requires { at + 16 ≤ length bytes.now }
    ensures { result ≡ phase_at bytes.now at }
{
    phase_detector::Config {
        on_ppm: word_at(bytes, at),
        off_ppm: word_at(bytes, at + 4),
        hold: word_at(bytes, at + 8),
    }
}

fn rhythm_at(bytes: &[u8], at: usize) -> VitalsConfig
    requires { at + 20 ≤ length bytes.now }
    ensures { result ≡ rhythm_at bytes.now at }
{
    VitalsConfig {
        decim: word_at(bytes, at),
        rate_hz: word_at(bytes, at + 2),
        band: Band {
            lo_mhz: word_at(bytes, at + 6),
            hi_mhz: word_at(bytes, at + 10),
        },
        update_every: word_at(bytes, at + 14),
        accept_permille: word_at(bytes, at + 16),
        highpass: word_at(bytes, at + 18),
    }
}

// Of any range.
pub fn settings_of(bytes: &[u8]) -> Settings
    requires { settings_len ≤ length bytes.now }
    ensures { result ≡ settings_of bytes.now }
{
    Settings {
        w: word_at(bytes, 0),
        n: word_at(bytes, 2),
        presence: presence_at(bytes, PRESENCE_AT),
        phase: phase_at(bytes, PHASE_AT),
        breathing: rhythm_at(bytes, BREATHING_AT),
        heart: rhythm_at(bytes, HEART_AT),
        fall: config_at(bytes, FALL_AT),
    }
}
