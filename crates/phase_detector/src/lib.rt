// Presence from the circular variance of the phase over the last W frames (phase.rs, `PhaseDetector`): its settings and its sums of columns. The
// detector itself is `sliding`'s, of these sums.
#![tactic(auto)]

ghost use Rattle.std.specs.Prelude.{◌≡◌, refl};
ghost use Rattle.vectors.specs.Vector.{bits, column_ppm};
ghost use Rattle.phase_detector.specs.Wander.{ColumnRange};
ghost use Rattle.phase_detector.specs.Phase.{phase_kind, limits_of, entries};
ghost use Rattle.phase_detector.specs.Laws.{some_unit, entrywise, columnwise};

use detector::Limits;
use sliding::steps::ColumnSums;
use vectors::tables::SinTable;
use window::COLUMNS;
use window::steps::share::Rows;

pub mod steps;

// Thresholds in parts per million, and the shortest time, in microseconds, from the last motion to absence.
#[repr(C)]
#[derive(Clone, Copy, Debug, PartialEq, Eq, Hash)]
pub struct Config {
    pub on_ppm: u32,
    pub off_ppm: u32,
    pub hold: u64,
}

impl From<Config> for Limits {
    ghost from_gives = { λ config limits. limits ≡ limits_of config };

    fn from(config: Config) -> Limits {
        Limits {
            on: config.on_ppm,
            off: config.off_ppm,
            hold: config.hold,
        }
    }
}

// The sums of the cosines and of the sines of the columns' angles, over all rows of the ring.
#[repr(C)]
#[derive(Clone, Copy, PartialEq, Eq)]
pub struct Sums {
    pub cos: [i32; COLUMNS],
    pub sin: [i32; COLUMNS],
}

impl ColumnSums for Sums {
    type Entry = i16;

    type Table = SinTable;

    ghost kind = { phase_kind };

    ghost firsts = { λ sums. sums.cos };

    ghost seconds = { λ sums. sums.sin };

    ghost In = { ColumnRange };

    ghost term = { column_ppm };

    ghost bits = { bits };

    ghost entries = { entries };

    ghost TOP = { phase_kind.top };

    ghost UNIT = { phase_kind.unit };

    // In parts per million.
    const TOP: u32 = 1000000;

    const UNIT: u32 = 10;

    fn table() -> SinTable {
        SinTable::new()
    }

    fn bits(entry: i16) -> u16 {
        entry.cast_unsigned()
    }

    fn none() -> Sums {
        steps::no_sums()
    }

    fn zeros(w: usize) -> Sums {
        steps::zero_sums(w)
    }

    fn add(&mut self, table: &SinTable, sc: usize, x: u16) {
        self.put(sc, steps::added(table, self.at(sc), x));
    }

    fn replace(&mut self, table: &SinTable, sc: usize, old: u16, x: u16) {
        self.put(sc, steps::moved(table, self.at(sc), old, x));
    }

    fn same(&self, other: &Sums) -> bool {
        self == other
    }

    fn wander(&self, rows: Rows, sc: usize) -> u32 {
        vectors::steps::column_ppm(rows, self.at(sc))
    }

    ghost top = { refl };

    ghost unit = { refl };

    ghost some_unit = { some_unit };

    ghost entrywise = { entrywise };

    ghost columnwise = { columnwise };
}
