// Division by one number many times: by a product and a shift.
ghost use Rattle.std.specs.Prelude.{◌≡◌, ◌*◌, ◌/◌, ◌≤◌};
ghost use Rattle.vitals.specs.Divide.{inverse};

// What to divide by, and what to multiply with instead.
#[derive(Clone, Copy)]
pub struct Divisor {
    pub by: u32,
    pub factor: u64,
    ghost some: { 1 ≤ by },
    ghost few: { by ≤ 32767 },
    ghost exact: { factor ≡ inverse by },
}

// 2^46.
const UNIT: u64 = 70368744177664;

impl Divisor {
    pub fn new(by: u32) -> Divisor
        requires { (1 ≤ by) × (by ≤ 32767) }
        ensures { result.by ≡ by }
    {
        Divisor {
            by,
            factor: UNIT / u64::from(by) + 1,
        }
    }

    // The same, if it divides by `by`; else a new one.
    pub(crate) fn or_by(self, by: u32) -> Divisor
        requires { (1 ≤ by) × (by ≤ 32767) }
        ensures { result.by ≡ by }
    {
        if self.by == by {
            self
        } else {
            Divisor::new(by)
        }
    }

    // The mean of a total of as many numbers of 16 bits.
    pub fn divide(self, total: u32) -> u32
        requires { total ≤ self.by * 65535 }
        ensures { result ≡ total / self.by }
    {
        ((u64::from(total) * self.factor) >> 46) as u32
    }
}
