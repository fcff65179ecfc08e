// Unit vectors of angles in binary radians (phase.rs, `unit_vector` and a column of `compute_wander`).
#![tactic(auto)]

ghost use Rattle.std.specs.Prelude.{◌≡◌, ◌+ℤ◌, ◌-ℤ◌, FitsSigned};
ghost use Rattle.std.specs.Int.{w32};

pub mod steps;
pub mod tables;

use std::ops::{Add, Sub};

// The length of a unit vector.
pub const UNIT: u32 = 16384;

// A unit vector, or a sum of some.
#[derive(Clone, Copy)]
pub struct UnitVector {
    pub cos: i32,
    pub sin: i32,
}

impl Add for UnitVector {
    type Output = UnitVector;

    ghost can_add = { λ a b. FitsSigned w32 (a.cos +ℤ b.cos) × FitsSigned w32 (a.sin +ℤ b.sin) };

    ghost add_gives = { λ a b r. (r.cos ≡ a.cos +ℤ b.cos) × (r.sin ≡ a.sin +ℤ b.sin) };

    fn add(self, other: UnitVector) -> UnitVector {
        UnitVector {
            cos: self.cos + other.cos,
            sin: self.sin + other.sin,
        }
    }
}

impl Sub for UnitVector {
    type Output = UnitVector;

    ghost can_sub = { λ a b. FitsSigned w32 (a.cos -ℤ b.cos) × FitsSigned w32 (a.sin -ℤ b.sin) };

    ghost sub_gives = { λ a b r. (r.cos ≡ a.cos -ℤ b.cos) × (r.sin ≡ a.sin -ℤ b.sin) };

    fn sub(self, other: UnitVector) -> UnitVector {
        UnitVector {
            cos: self.cos - other.cos,
            sin: self.sin - other.sin,
        }
    }
}
