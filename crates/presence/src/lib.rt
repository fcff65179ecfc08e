// Presence from the wander of the amplitudes over the last W frames (csi.rs, `PresenceDetector`): its settings and its sums of columns. The detector
// itself is `sliding`'s, of these sums.
#![tactic(auto)]

ghost use Rattle.std.specs.Prelude.{◌≡◌, refl};
ghost use Rattle.presence.specs.Wander.{ColumnRange, column_wander};
ghost use Rattle.presence.specs.Presence.{presence_kind, limits_of, normalised_default};
ghost use Rattle.presence.specs.Laws.{some_unit, entrywise, columnwise};

use detector::Limits;
use sliding::steps::ColumnSums;
use window::COLUMNS;
use window::steps::share::Rows;

pub mod steps;

// Thresholds in permille, and the shortest time, in microseconds, from the last motion to absence.
#[repr(C)]
#[derive(Clone, Copy, Debug, PartialEq, Eq, Hash)]
pub struct Config {
    pub on_permille: u16,
    pub off_permille: u16,
    pub hold: u64,
}

impl Config {
    // For amplitudes divided by their frame's mean: 32 and 23 permille, three seconds.
    pub fn normalised_default() -> Config
        ensures { result ≡ normalised_default }
    {
        Config {
            on_permille: 32,
            off_permille: 23,
            hold: 3000000,
        }
    }
}

impl From<Config> for Limits {
    ghost from_gives = { λ config limits. limits ≡ limits_of config };

    fn from(config: Config) -> Limits {
        Limits {
            on: u32::from(config.on_permille),
            off: u32::from(config.off_permille),
            hold: config.hold,
        }
    }
}

// The sums and the square sums of the columns, over all rows of the ring.
#[repr(C)]
#[derive(Clone, Copy, PartialEq, Eq)]
pub struct Sums {
    pub sum: [u32; COLUMNS],
    pub sumsq: [u64; COLUMNS],
}

impl ColumnSums for Sums {
    type Entry = u16;

    type Table = ();

    ghost kind = { presence_kind };

    ghost firsts = { λ sums. sums.sum };

    ghost seconds = { λ sums. sums.sumsq };

    ghost In = { ColumnRange };

    ghost term = { column_wander };

    ghost bits = { λ entry. entry };

    ghost entries = { λ frame. frame };

    ghost TOP = { presence_kind.top };

    ghost UNIT = { presence_kind.unit };

    // In permille.
    const TOP: u32 = 65535;

    const UNIT: u32 = 1;

    fn table() {}

    fn bits(entry: u16) -> u16 {
        entry
    }

    fn none() -> Sums {
        steps::no_sums()
    }

    // An amplitude of 0 adds nothing.
    fn zeros(_w: usize) -> Sums {
        steps::no_sums()
    }

    fn add(&mut self, _table: &(), sc: usize, x: u16) {
        self.sum[sc] += u32::from(x);
        self.sumsq[sc] += steps::square(x);
    }

    fn replace(&mut self, _table: &(), sc: usize, old: u16, x: u16) {
        self.sum[sc] = self.sum[sc] - u32::from(old) + u32::from(x);
        self.sumsq[sc] = self.sumsq[sc] - steps::square(old) + steps::square(x);
    }

    fn same(&self, other: &Sums) -> bool {
        self == other
    }

    fn wander(&self, rows: Rows, sc: usize) -> u32 {
        steps::column_wander(rows, self.sum[sc], self.sumsq[sc])
    }

    ghost top = { refl };

    ghost unit = { refl };

    ghost some_unit = { some_unit };

    ghost entrywise = { entrywise };

    ghost columnwise = { columnwise };
}
