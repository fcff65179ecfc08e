// The open block: frames are added to its totals, and a whole one becomes a row of block means (vitals.rs, `push`).
ghost use Rattle.std.specs.Prelude.{◌≡◌, map, ℕ, ◌+◌, ◌*◌, ◌/◌, ◌≤◌, ◌<◌, length, get_or, replicate};
ghost use Rattle.num.specs.Lists.{plus};
ghost use Rattle.window.specs.Window.{columns, ring_rows};
ghost use Rattle.estimator.specs.State.{ring_length, begun_at, begun_totals, fed_at, closed_at, rows_with};

use crate::{Progress, VitalsEstimator};
use vitals::steps::divide::Divisor;
use window::COLUMNS;

// The mean of a column's total.
fn mean_of(total: u32, d: Divisor) -> u16
    requires { total ≤ d.by * 65535 }
    ensures { result ≡ total / d.by }
{
    d.divide(total) as u16
}

// The means of all totals over so many frames.
fn means(acc: &[u32; COLUMNS], frames: u32) -> [u16; COLUMNS]
    requires { (1 ≤ frames) × (frames ≤ 32767) × ((k : ℕ) → k < columns → get_or acc.now k 0 ≤ frames * 65535) }
    ensures { result ≡ map (λ (total : ℕ). total / frames) acc.now }
{
    let d = Divisor::new(frames);
    let mut out = [0; COLUMNS];
    for (sc, &total) in acc.iter().enumerate() {
        out[sc] = mean_of(total, d);
    }
    out
}

impl Progress {
    // A block more in a window of n.
    fn with_block(self, n: usize) -> Progress
        requires { (self.next < n) × (self.filled ≤ n) × (n ≤ 512) × (self.since_update ≤ 65535) }
        ensures { result ≡ closed_at n self }
    {
        Progress {
            count: self.count,
            filled: n.min(self.filled + 1),
            next: (self.next + 1) % n,
            acc_n: 0,
            since_update: self.since_update + 1,
        }
    }
}

impl VitalsEstimator {
    // A frame of another count restarts the window and empties the open block.
    pub(crate) fn begin(&mut self, count: usize)
        ensures { (self.new.progress ≡ begun_at self.old.progress count) × (self.new.acc ≡ begun_totals self.old.progress self.old.acc count) }
    {
        if self.progress.count == count {
            return;
        }
        self.progress = crate::steps::restarted(count);
        self.acc.fill(0);
    }

    // A frame's amplitudes added to the totals.
    pub(crate) fn add(&mut self, frame: &[u16])
        requires { (length frame.now ≤ columns) × (self.old.progress.acc_n ≤ 65535) × ((k : ℕ) → k < columns → get_or self.old.acc k 0 ≤ 2147319810) }
        ensures { (self.new.progress ≡ fed_at self.old.progress) × (self.new.acc ≡ plus self.old.acc frame.now) × ((k : ℕ) → get_or frame.now k 0 ≤ 65535) }
    {
        for (sc, &v) in frame.iter().enumerate() {
            self.acc[sc] += u32::from(v);
        }
        self.progress.acc_n += 1;
    }

    // A whole block: its means are written to the next slot, and a new one is begun.
    pub(crate) fn close(&mut self, rows: &mut [u8], n: usize)
        requires ring { (self.old.progress.next < n) × (self.old.progress.filled ≤ n) × (n ≤ 512) × (self.old.progress.since_update ≤ 65535) × (length rows.old ≡ ring_length n) × (self.old.progress.count ≤ columns) }
        requires bound { (1 ≤ self.old.progress.acc_n) × (self.old.progress.acc_n ≤ 32767) × ((k : ℕ) → k < columns → get_or self.old.acc k 0 ≤ self.old.progress.acc_n * 65535) }
        ensures { (self.new.progress ≡ closed_at n self.old.progress) × (self.new.acc ≡ replicate columns 0) × (ring_rows n columns rows.new ≡ rows_with self.old.progress self.old.acc (ring_rows n columns rows.old)) }
    {
        let progress = self.progress;
        let row = means(&self.acc, progress.acc_n);
        window::steps::write_row(rows, n, progress.next, &row[..progress.count]);
        self.acc = [0; COLUMNS];
        self.progress = progress.with_block(n);
    }
}
