// A column of the window: read from the ring, prepared, and its correlations added to the sums (vitals.rs, `estimate`).
ghost use Rattle.std.specs.Prelude.{◌≡◌, ℕ, ◌+◌, ◌*◌, ◌≤◌, ◌<◌, length, get_or, pos};
ghost use Rattle.num.specs.Wrap.{wrap16};
ghost use Rattle.window.specs.Window.{columns};
ghost use Rattle.window.specs.Words.{words};
ghost use Rattle.vitals.specs.Series.{at, prepared};
ghost use Rattle.vitals.specs.Correlation.{curve};
ghost use Rattle.vitals.specs.Steps.{Joined};
ghost use Rattle.estimator.specs.Estimate.{series, columns_of};
ghost use Rattle.estimator.specs.Steps.{Read, blocks_in};

use crate::view::View;
use vitals::band::Lags;
use vitals::steps::padded::Padded;
use vitals::steps::summed::{LAG_ROOM, LagSums};
use window::COLUMNS;

// The entry `at`, a signed number.
fn signed_entry(rows: &[u8], at: usize) -> i16
    requires { 2 * at + 1 < length rows.now }
    ensures { result ≡ wrap16 (pos (get_or (words rows.now) at 0)) }
{
    window::steps::entry(rows, at).cast_signed()
}

// Of the column `sc`, `many` entries from the slot `first` on, into `out` from `at` on.
fn read_slots(rows: &[u8], first: usize, many: usize, sc: usize, out: &mut Padded, at: usize)
    requires { (2 * ((first + many) * columns) ≤ length rows.now) × (first + many ≤ 512) × (sc < columns) × (at + many ≤ length out.old) × (at ≤ 512) }
    ensures { Read rows.now first many sc at out.old out.new }
{
    for k in 0..many {
        out.set(at + k, signed_entry(rows, (first + k) * COLUMNS + sc));
    }
}

// The column `sc`: from the oldest row's slot to the last, then from the first.
fn read_column(view: View<'_>, sc: usize, out: &mut Padded)
    requires { (length out.old ≡ view.n) × (sc < view.count) }
    ensures column { out.new ≡ series (blocks_in view.entry) sc }
    ensures long { length out.new ≡ view.entry.n }
{
    let older = view.n - view.next;
    read_slots(view.rows, view.next, older, sc, out, 0);
    read_slots(view.rows, 0, view.next, sc, out, older);
}

// The column `sc`, prepared, and its correlations added to the sums; `a` and `b` are room to work in.
fn add_column(
    view: View<'_>,
    sc: usize,
    m: usize,
    a: &mut Padded,
    b: &mut Padded,
    summed: &mut LagSums<LAG_ROOM>,
)
    requires n_bound { (sc < view.count) × (length a.old ≡ view.n) × (length b.old ≡ view.n) }
    requires sums { (summed.old.lags.hi + 1 < view.n) × (summed.old.used ≤ sc) }
    ensures joined { Joined (prepared m (series (blocks_in view.entry) sc)) (summed.old.lags.hi + 1) summed.old.used summed.old.by_lag summed.new.used summed.new.by_lag × (summed.new.lags ≡ summed.old.lags) }
    ensures long { (length a.new ≡ view.entry.n) × (length b.new ≡ view.entry.n) }
{
    read_column(view, sc, a);
    a.centre();
    if 1 < m {
        b.highpass_of(a, m);
        summed.add(b);
        return;
    }
    summed.add(a);
}

// The correlations of all columns, summed.
pub(crate) fn sum_columns(view: View<'_>, m: usize, lags: Lags) -> LagSums<LAG_ROOM>
    requires { (lags.hi ≤ 127) × (lags.hi + 1 < view.n) }
    ensures count { (result.lags ≡ lags) × (result.used ≡ length (columns_of m (blocks_in view.entry))) }
    ensures sums { (k : ℕ) → k ≤ lags.hi + 1 → at result.by_lag k ≡ at (curve (columns_of m (blocks_in view.entry)) lags.hi) k }
{
    let mut a = Padded::zeros(view.n);
    let mut b = Padded::zeros(view.n);
    let mut summed = LagSums::new(lags);
    for sc in 0..view.count {
        add_column(view, sc, m, &mut a, &mut b, &mut summed);
    }
    summed
}
