// A number of rows, with the number that a product and a shift take in place of a division by it.
ghost use Rattle.std.specs.Prelude.{◌≡◌, ◌/◌, ◌≤◌};
ghost use Rattle.window.specs.Window.{max_rows, row_reciprocal, most_per_row};

use crate::steps::SCALE;

#[derive(Clone, Copy)]
pub struct Rows {
    pub w: u64,
    pub reciprocal: u64,
    ghost some: { 1 ≤ w },
    ghost few: { w ≤ max_rows },
    ghost is_reciprocal: { reciprocal ≡ row_reciprocal w },
}

impl Rows {
    pub fn new(w: u64) -> Rows
        requires { (1 ≤ w) × (w ≤ max_rows) }
        ensures { result.w ≡ w }
    {
        Rows {
            w,
            reciprocal: crate::steps::row_reciprocal(w),
        }
    }

    // x / w
    pub fn share(self, x: u64) -> u64
        requires { x / self.w ≤ most_per_row }
        ensures { result ≡ x / self.w }
    {
        x * self.reciprocal / SCALE
    }
}
