// An energy that sums of products are divided by (vitals.rs, `estimate`).
ghost use Rattle.std.specs.Prelude.{◌≡◌, ◌-◌, ◌*◌, ◌/◌, ◌≤◌, ◌<◌, min, nat_abs};
ghost use Rattle.vitals.specs.Correlation.{rho_of};
ghost use Rattle.vitals.specs.Energy.{most_energy, per_energy};

// The sum of the squares of n samples, and what to multiply with instead of dividing by it.
#[derive(Clone, Copy)]
pub(crate) struct Energy {
    pub(crate) sum: u64,
    pub(crate) n: usize,
    factor: u64,
    ghost some: { 1 ≤ sum },
    ghost most: { sum ≤ most_energy },
    ghost few: { n ≤ 512 },
    ghost scaled: { factor ≡ per_energy n sum },
}

// 2^44.
const SCALE: u64 = 17592186044416;

impl Energy {
    pub(crate) fn new(sum: u64, n: usize) -> Energy
        requires { (1 ≤ sum) × (sum ≤ most_energy) × (n ≤ 512) }
        ensures { (result.sum ≡ sum) × (result.n ≡ n) }
    {
        Energy {
            sum,
            n,
            factor: 1000 * (n as u64) * SCALE / sum + 1,
        }
    }

    // size * 1000 * n over the energy: the product gives it or one more, and a comparison tells which.
    fn share(self, size: u64) -> u32
        requires { size ≤ self.sum }
        ensures { result ≡ size * (1000 * self.n) / self.sum }
    {
        let near = size * self.factor / SCALE;
        if size * (1000 * (self.n as u64)) < near * self.sum {
            (near - 1) as u32
        } else {
            near as u32
        }
    }

    // The same in permille, corrected for the overlap of n - lag, and at most 2000.
    fn permille(self, size: u64, lag: usize) -> u16
        requires { (size ≤ self.sum) × (lag < self.n) }
        ensures { result ≡ min 2000 (size * (1000 * self.n) / ((self.n - lag) * self.sum)) }
    {
        (self.share(size) / ((self.n - lag) as u32)).min(2000) as u16
    }

    // A sum of products over the energy, in permille, corrected for the overlap of n - lag. The sign is put back last, since those of noise
    // come at random and a branch on them is a guess.
    pub(crate) fn rho(self, r: i64, lag: usize) -> i32
        requires { (nat_abs r ≤ self.sum) × (lag < self.n) }
        ensures { result ≡ rho_of r self.sum self.n lag }
    {
        num::with_sign(r < 0, self.permille(r.unsigned_abs(), lag))
    }
}
