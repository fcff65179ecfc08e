// The steps of the phase detector: no sums, those of zeros, and a column's sums with an angle more or another. The caller has tested settings, state and
// memory.
ghost use Rattle.std.specs.Prelude.{◌≡◌, ◌^◌, ◌<◌, ◌≤◌, nat_abs, ◌+ℤ◌, pos, set, get_or};
ghost use Rattle.window.specs.Window.{columns, max_rows};
ghost use Rattle.vectors.specs.Vector.{cos_at, sin_at};
ghost use Rattle.phase_detector.specs.Phase.{no_sums, zero_row_sums};

use crate::Sums;
use vectors::tables::SinTable;
use vectors::{UNIT, UnitVector};
use window::COLUMNS;

// The sums of no rows.
pub fn no_sums() -> Sums
    ensures { result ≡ no_sums }
{
    Sums {
        cos: [0i32; COLUMNS],
        sin: [0i32; COLUMNS],
    }
}

// The sums of w rows of zeros. A zero is an angle too, whose cosine is a unit.
pub fn zero_sums(w: usize) -> Sums
    requires { w ≤ max_rows }
    ensures { result ≡ zero_row_sums w }
{
    let cosines = (w * (UNIT as usize)) as i32;
    Sums {
        cos: [cosines; COLUMNS],
        sin: [0i32; COLUMNS],
    }
}

// A column's sums with the vector of the angle x.
pub(crate) fn added(table: &SinTable, sums: UnitVector, x: u16) -> UnitVector
    requires { (nat_abs sums.cos ≤ 2 ^ 28) × (nat_abs sums.sin ≤ 2 ^ 28) }
    ensures { (result.cos ≡ cos_at x +ℤ sums.cos) × (result.sin ≡ sin_at x +ℤ sums.sin) }
{
    table.unit_vector(x) + sums
}

// A column's sums without the vector of the angle `old` and with that of x.
pub(crate) fn moved(table: &SinTable, sums: UnitVector, old: u16, x: u16) -> UnitVector
    requires { (nat_abs sums.cos ≤ 2 ^ 28) × (nat_abs sums.sin ≤ 2 ^ 28) }
    ensures { (cos_at old +ℤ result.cos ≡ cos_at x +ℤ sums.cos) × (sin_at old +ℤ result.sin ≡ sin_at x +ℤ sums.sin) }
{
    sums - table.unit_vector(old) + table.unit_vector(x)
}

impl Sums {
    // The sums of a column.
    pub(crate) fn at(&self, sc: usize) -> UnitVector
        requires { sc < columns }
        ensures { (result.cos ≡ get_or self.now.cos sc (pos 0)) × (result.sin ≡ get_or self.now.sin sc (pos 0)) }
    {
        UnitVector {
            cos: self.cos[sc],
            sin: self.sin[sc],
        }
    }

    pub(crate) fn put(&mut self, sc: usize, sums: UnitVector)
        requires { sc < columns }
        ensures cos { self.new.cos ≡ set self.old.cos sc sums.cos }
        ensures sin { self.new.sin ≡ set self.old.sin sc sums.sin }
    {
        self.cos[sc] = sums.cos;
        self.sin[sc] = sums.sin;
    }
}
