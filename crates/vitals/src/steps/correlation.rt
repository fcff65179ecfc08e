// Sums of products of samples that are a lag apart (vitals.rs, `estimate`).
ghost use Rattle.std.specs.Prelude.{◌≡◌, ◌+◌, ◌≤◌, ◌<◌, length, take, nat_abs};
ghost use Rattle.num.specs.Sum.{dot_z};
ghost use Rattle.vitals.specs.Correlation as spec;
ghost use Rattle.vitals.specs.Correlation.{energy, corr_of};
ghost use Rattle.vitals.specs.Energy.{most_energy};
ghost use Rattle.vitals.specs.Steps.{Summable, ZerosFrom, block_len};

use crate::steps::energy::Energy;
use crate::steps::padded::Padded;
use crate::steps::part::{One, Part, Twice};

// The samples of a block: two turns of the loop for a window of 128.
pub const BLOCK: usize = 64;

type Block = Twice<Twice<Twice<Twice<Twice<Twice<One>>>>>>;

// The sum of the first n products, in blocks: behind its first n samples `b` holds zeros.
fn dot_blocks(a: &[i16], b: &[i16], n: usize) -> i32
    requires { (n + block_len ≤ length a.now) × (n + block_len ≤ length b.now) × Summable a.now b.now × ZerosFrom n b.now }
    ensures { result ≡ dot_z (take n a.now) b.now }
{
    let mut sum = 0;
    for i in 0..n.div_ceil(BLOCK) {
        sum += Block::sum(a, b, i * BLOCK, BLOCK);
    }
    sum
}

// The largest sum that fits 32 bits.
const MOST: u64 = 2147483647;

impl Padded {
    // The sum of the squares.
    pub(crate) fn energy(&self) -> u64
        ensures { (result ≡ energy self.now) × (result ≤ most_energy) }
    {
        num::sum_sq_i16(&self.room[..self.n]) as u64
    }

    // The sum of the products of samples that are `lag` apart. Where the energy fits 32 bits every such sum does.
    fn lagged(&self, lag: usize, energy: u64) -> i64
        requires { (lag < length self.now) × (energy ≡ spec.energy self.now) }
        ensures { (result ≡ spec.lagged self.now lag) × (nat_abs result ≤ energy) }
    {
        let n = self.n - lag;
        if energy <= MOST {
            i64::from(dot_blocks(&self.room, &self.room[lag..], n))
        } else {
            num::dot_i16(&self.room[..n], &self.room[lag..])
        }
    }

    // The correlation of the series with itself, `lag` samples apart.
    pub(crate) fn correlation(&self, lag: usize, e: Energy) -> i32
        requires { (lag < length self.now) × (e.n ≡ length self.now) × (e.sum ≡ spec.energy self.now) }
        ensures { (result ≡ corr_of self.now lag) × (nat_abs result ≤ 2000) }
    {
        e.rho(self.lagged(lag, e.sum), lag)
    }
}
