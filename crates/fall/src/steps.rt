// The settings as bytes (docs/LAYOUT.md), for a caller that has seen to the length.
ghost use Rattle.std.specs.Prelude.{◌≡◌, ◌+◌, ◌≤◌, length};
ghost use Rattle.fall.specs.Config.{config_len, config_at};

use crate::FallConfig;
use num::steps::word_at;

// The settings that stand from `at` on.
pub fn config_at(bytes: &[u8], at: usize) -> FallConfig
    requires { at + config_len ≤ length bytes.now }
    ensures { result ≡ config_at bytes.now at }
{
    FallConfig {
        active_permille: word_at(bytes, at),
        burst_permille: word_at(bytes, at + 2),
        still_permille: word_at(bytes, at + 4),
        min_active: word_at(bytes, at + 6),
        quiet_grace: word_at(bytes, at + 14),
        settle: word_at(bytes, at + 22),
        still_for: word_at(bytes, at + 30),
        refractory: word_at(bytes, at + 38),
    }
}
