// The settings that a unit is begun with, and whether their named ranges are kept.
ghost use Rattle.std.specs.Prelude.{◌≡◌, true};
ghost use Rattle.std.specs.Result.{result_map_both};
ghost use Rattle.room_sensing.specs.Settings.{in_range, settings_read};

use crate::steps::settings_of;
use fall::FallConfig;
use refusal::Refusal;
use room_memory::SETTINGS_LEN;
use vitals::config::VitalsConfig;

// The frames of a window, for presence and phase; the block means, for breathing and heart; and each detector's own.
#[derive(Clone, Copy)]
pub struct Settings {
    pub w: u16,
    pub n: u16,
    pub presence: presence::Config,
    pub phase: phase_detector::Config,
    pub breathing: VitalsConfig,
    pub heart: VitalsConfig,
    pub fall: FallConfig,
}

impl Settings {
    // Whether every named range is kept.
    #[tactic(auto, unfolding(crate::specs::Settings::in_range))]
    fn is_in_range(&self) -> bool
        ensures { result ≡ in_range self.now }
    {
        let n = usize::from(self.n);
        detector::steps::is_window(usize::from(self.w))
            && estimator::steps::is_legal(self.breathing, n)
            && estimator::steps::is_legal(self.heart, n)
    }
}

// Settings with every named range kept.
#[derive(Clone, Copy)]
pub struct InRange {
    pub settings: Settings,
    pub ghost kept: { in_range settings ≡ true },
}

// The settings that these bytes hold, with every named range kept.
impl TryFrom<&[u8]> for InRange {
    type Error = Refusal;

    ghost try_from_gives = { λ bytes r. result_map_both (λ s. s.settings) (λ e. e) r ≡ settings_read bytes.now };

    #[tactic(auto, unfolding(crate::specs::Settings::legal))]
    fn try_from(bytes: &[u8]) -> Result<InRange, Refusal> {
        if bytes.len() != SETTINGS_LEN {
            return Err(Refusal::Settings);
        }
        let settings = settings_of(bytes);
        if settings.is_in_range() {
            Ok(InRange { settings })
        } else {
            Err(Refusal::Settings)
        }
    }
}

impl TryFrom<&[u8]> for Settings {
    type Error = Refusal;

    ghost try_from_gives = { λ bytes r. r ≡ settings_read bytes.now };

    fn try_from(bytes: &[u8]) -> Result<Settings, Refusal> {
        Ok(InRange::try_from(bytes)?.settings)
    }
}
