// How much memory a unit needs (docs/LAYOUT.md).
ghost use Rattle.std.specs.Prelude.{◌≡◌};
ghost use Rattle.estimator.specs.State.{ring_length};
ghost use Rattle.room_sensing.specs.Settings.{memory_size};

use crate::settings::Settings;
use window::COLUMNS;

// The bytes of so many rows.
pub fn ring_len(rows: u16) -> usize
    ensures { result ≡ ring_length rows }
{
    2 * (usize::from(rows) * COLUMNS)
}

impl Settings {
    // The header, then the rings of presence, phase, breathing and heart.
    #[tactic(auto, unfolding(crate::specs::Settings::memory_size))]
    pub fn memory_len(&self) -> usize
        ensures { result ≡ memory_size self.now }
    {
        room_memory::HEADER_LEN + (2 * ring_len(self.w) + 2 * ring_len(self.n))
    }
}
