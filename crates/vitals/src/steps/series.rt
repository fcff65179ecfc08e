// A series of samples: its mean taken off, and its moving average (vitals.rs, `estimate` and `highpass`).
ghost use Rattle.std.specs.Prelude.{◌≡◌, map, ℤ, ◌+◌, ◌-◌, ◌*◌, ◌≤◌, ◌<◌, min, length, pos, nat_abs, ◌-ℤ◌};
ghost use Rattle.std.specs.Int.Signed.{quot_z};
ghost use Rattle.num.specs.Sum.{sum_z};
ghost use Rattle.vitals.specs.Series.{clamp16, mean_of, half_of, highpassed};
ghost use Rattle.vitals.specs.Steps.{Samples, Slid, Around};

use crate::steps::divide::Divisor;

// The most samples of a series.
pub const MAX_SAMPLES: usize = 512;

// A sample less a mean, within the range of an i16.
fn off(v: i16, mean: i32) -> i16
    requires { nat_abs mean ≤ 1073741824 }
    ensures { result ≡ clamp16 (v -ℤ mean) }
{
    (i32::from(v) - mean).clamp(-32768, 32767) as i16
}

// Each sample less a mean.
pub(crate) fn lower(x: &mut [i16], mean: i32)
    requires { nat_abs mean ≤ 1073741824 }
    ensures { x.new ≡ map (λ (v : ℤ). clamp16 (v -ℤ mean)) x.old }
{
    for v in x.iter_mut() {
        *v = off(*v, mean);
    }
}

// The mean of as many samples as it is divided by.
fn mean_in(sum: i32, d: Divisor) -> i32
    requires { nat_abs sum ≤ 32768 * d.by }
    ensures { (result ≡ quot_z sum (pos d.by)) × (nat_abs result ≤ 1073741824) }
{
    let size = d.divide(sum.unsigned_abs());
    num::with_sign(sum < 0, size as u16)
}

// Half of the window, for a moving average of m of n samples.
fn half_of(m: usize, n: usize) -> usize
    ensures { result ≡ half_of m n }
{
    (m.min(n) / 2).max(1)
}

// Samples, not too many to sum.
#[derive(Clone, Copy)]
pub(crate) struct Series<'a> {
    pub(crate) samples: &'a [i16],
    ghost few: { length samples.now ≤ 512 },
    ghost sized: { Samples samples.now },
}

// The samples from `lo` to before `hi`, and their sum.
#[derive(Clone, Copy)]
struct Window<'a> {
    series: Series<'a>,
    lo: usize,
    hi: usize,
    sum: i32,
    ghost slid: { Slid series.samples.now lo hi sum },
}

impl<'a> Series<'a> {
    // The sum of the samples.
    fn sum(self) -> i32
        ensures { result ≡ sum_z self.entry.samples.now }
    {
        self.samples.iter().map(|&v| i32::from(v)).sum()
    }

    // The mean of the samples.
    pub(crate) fn mean(self) -> i32
        requires { 1 ≤ length self.samples.now }
        ensures { (result ≡ mean_of self.entry.samples.now) × (nat_abs result ≤ 1073741824) }
    {
        let sum = self.sum();
        sum / (self.samples.len() as i32)
    }

    // The window of the first sample.
    fn first_window(self, half: usize) -> Window<'a>
        requires { half ≤ 512 }
        ensures { (result.series ≡ self.entry) × Around self.entry.samples.now half 0 result.lo result.hi }
    {
        let end = self.samples.len().min(half + 1);
        let front = Series {
            samples: &self.samples[0..end],
        };
        Window {
            series: self,
            lo: 0,
            hi: end,
            sum: front.sum(),
        }
    }

    // Each sample less the mean of its neighbourhood of m samples, into `out`.
    pub(crate) fn highpass(self, m: usize, out: &mut [i16])
        requires { length out.old ≡ length self.samples.now }
        ensures { out.new ≡ highpassed m self.entry.samples.now }
    {
        let half = half_of(m, self.samples.len());
        let mut w = self.first_window(half);
        let mut d = Divisor::new(1);
        for (i, &v) in self.samples.iter().enumerate() {
            d = d.or_by((w.hi - w.lo) as u32);
            out[i] = off(v, mean_in(w.sum, d));
            w = w.moved(i, half);
        }
    }
}

impl Window<'_> {
    // One sample longer, unless it ends with the series.
    fn grown(self) -> Self
        ensures { (result.series ≡ self.entry.series) × (result.lo ≡ self.entry.lo) × (result.hi ≡ min (self.entry.hi + 1) (length self.entry.series.samples.now)) }
    {
        let samples = self.series.samples;
        if self.hi < samples.len() {
            return Window {
                sum: self.sum + i32::from(samples[self.hi]),
                series: self.series,
                lo: self.lo,
                hi: self.hi + 1,
            };
        }
        self
    }

    // Without its first sample.
    fn shrunk(self) -> Self
        requires { self.lo < self.hi }
        ensures { (result.series ≡ self.entry.series) × (result.lo ≡ self.entry.lo + 1) × (result.hi ≡ self.entry.hi) }
    {
        let samples = self.series.samples;
        Window {
            sum: self.sum - i32::from(samples[self.lo]),
            series: self.series,
            lo: self.lo + 1,
            hi: self.hi,
        }
    }

    // The window of sample i moved on to that of the next.
    fn moved(self, i: usize, half: usize) -> Self
        requires { Around self.series.samples.now half i self.lo self.hi × (i < length self.series.samples.now) }
        ensures { (result.series ≡ self.entry.series) × Around self.entry.series.samples.now half (i + 1) result.lo result.hi }
    {
        let longer = self.grown();
        if half <= i { longer.shrunk() } else { longer }
    }
}
