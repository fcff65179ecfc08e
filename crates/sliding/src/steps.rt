// The sums of columns of a kind of detector, and the steps of a push. The caller has tested settings, state and memory.
ghost use Rattle.std.specs.Prelude.{◌≡◌, [], ℕ, ◌+◌, ◌*◌, ◌<◌, ◌≤◌, List, length, take, replicate, get_or, set};
ghost use Rattle.num.specs.Tests.{Tells};
ghost use Rattle.window.specs.Window.{columns, max_rows, ring_rows, overwrite};
ghost use Rattle.window.specs.Sums.{Carried, Ring, is_ring};
ghost use Rattle.detector.specs.State.{settled_state};
ghost use Rattle.detector.specs.Detector.{Kind, Valid, is_valid, Pushes};
ghost use Rattle.detector.specs.Calls.{zero_sums};
ghost use Rattle.sliding.specs.Columns.{Added, Replaced, Ranges, Holds, Entrywise, Columnwise, wander_by};

use crate::{Frame, Held};
use detector::{Limits, State, Verdict};
use window::steps::share::Rows;
use window::{COLUMNS, MAX_ROWS};

// The two sums that a detector carries of each column, and all that one kind of detector has of its own.
pub trait ColumnSums: Copy {
    // An entry of a frame.
    type Entry: Copy;

    // A table that is looked up often: the caller holds it.
    type Table: Drop;

    ghost kind: { Kind };

    ghost firsts: { Self → List kind.sums.Number };

    ghost seconds: { Self → List kind.sums.Number };

    ghost In: { Ranges kind.sums };

    ghost term: { ℕ → kind.sums.Number → kind.sums.Number → ℕ };

    ghost bits: { Self.Entry → ℕ };

    ghost entries: { List Self.Entry → List ℕ };

    ghost TOP: { ℕ };

    ghost UNIT: { ℕ };

    // The largest wander.
    const TOP: u32;

    // Wander to a step of motion.
    const UNIT: u32;

    fn table() -> Self::Table;

    // The entry's 16 bits.
    fn bits(entry: Self::Entry) -> u16
        ensures { result ≡ bits entry };

    // The sums of no rows.
    fn none() -> Self
        ensures firsts { firsts result ≡ replicate columns kind.sums.none }
        ensures seconds { seconds result ≡ replicate columns kind.sums.none };

    // The sums of w rows of zeros.
    fn zeros(w: usize) -> Self
        requires { w ≤ max_rows }
        ensures firsts { firsts result ≡ zero_sums kind.sums.add kind.sums.none kind.sums.f w columns }
        ensures seconds { seconds result ≡ zero_sums kind.sums.add kind.sums.none kind.sums.g w columns };

    // Adds an entry to a column.
    fn add(&mut self, table: &Self::Table, sc: usize, x: u16)
        requires column { sc < columns }
        requires range { In max_rows (get_or (firsts self.old) sc kind.sums.none) (get_or (seconds self.old) sc kind.sums.none) }
        ensures { Added kind.sums sc x (firsts self.old) (seconds self.old) (firsts self.new) (seconds self.new) };

    // Puts an entry of a column in the place of another.
    fn replace(&mut self, table: &Self::Table, sc: usize, old: u16, x: u16)
        requires column { sc < columns }
        requires holds { Holds kind.sums In old (get_or (firsts self.old) sc kind.sums.none) (get_or (seconds self.old) sc kind.sums.none) }
        ensures { Replaced kind.sums sc old x (firsts self.old) (seconds self.old) (firsts self.new) (seconds self.new) };

    // Whether the sums of all columns are the same.
    fn same(&self, other: &Self) -> bool
        ensures { Tells result ((sc : ℕ) → sc < columns → (get_or (firsts self.now) sc kind.sums.none ≡ get_or (firsts other.now) sc kind.sums.none) × (get_or (seconds self.now) sc kind.sums.none ≡ get_or (seconds other.now) sc kind.sums.none)) };

    // The wander of a column.
    fn wander(&self, rows: Rows, sc: usize) -> u32
        requires column { sc < columns }
        requires range { In rows.w (get_or (firsts self.now) sc kind.sums.none) (get_or (seconds self.now) sc kind.sums.none) }
        ensures { result ≡ term rows.w (get_or (firsts self.now) sc kind.sums.none) (get_or (seconds self.now) sc kind.sums.none) };

    ghost top: { TOP ≡ kind.top };

    ghost unit: { UNIT ≡ kind.unit };

    ghost some_unit: { 0 < UNIT };

    ghost entrywise: { Entrywise bits entries };

    ghost columnwise: { Columnwise kind In term };
}

// A ring of w rows, which is only read.
#[derive(Clone, Copy)]
struct View<'a> {
    rows: &'a [u8],
    w: usize,
    ghost few: { w ≤ max_rows },
    ghost whole: { length rows.now ≡ 2 * (w * columns) },
    ghost bytes: { (i : ℕ) → get_or rows.now i 0 < 256 },
}

impl View<'_> {
    // Adds the row in `slot` to the sums of the rows before it.
    fn add_row<S: ColumnSums>(self, table: &S::Table, slot: usize, sums: &mut S)
        requires slot { slot < self.w }
        requires carried { Carried S.kind.sums columns (take slot (ring_rows self.w columns self.rows.now)) (S.firsts sums.old) (S.seconds sums.old) }
        ensures { Carried S.kind.sums columns (take (slot + 1) (ring_rows self.entry.w columns self.entry.rows.now)) (S.firsts sums.new) (S.seconds sums.new) }
    {
        let base = slot * COLUMNS;
        for sc in 0..COLUMNS {
            let x = window::steps::entry(self.rows, base + sc);
            sums.add(table, sc, x);
        }
    }

    // The sums of all columns, in one pass over the rows.
    fn sums<S: ColumnSums>(self) -> S
        ensures { Carried S.kind.sums columns (ring_rows self.entry.w columns self.entry.rows.now) (S.firsts result) (S.seconds result) }
    {
        let table = S::table();
        let mut out = S::none();
        for slot in 0..self.w {
            self.add_row(&table, slot, &mut out);
        }
        out
    }
}

// Whether the memory is a ring of w rows and the carried sums are those of its columns.
pub fn sums_match<S: ColumnSums>(rows: &[u8], w: usize, carried: &S) -> bool
    ensures { result ≡ is_ring S.kind.sums w columns rows.now (S.firsts carried.now) (S.seconds carried.now) }
{
    if MAX_ROWS < w || rows.len() != 2 * (w * COLUMNS) {
        return false;
    }
    let own: S = View { rows, w }.sums();
    own.same(carried)
}

// Whether a state, its sums and its memory are as a call leaves them.
pub fn is_valid<S: ColumnSums>(rows: &[u8], w: usize, held: &Held<S>) -> bool
    ensures { result ≡ is_valid S.kind w columns held.now.state rows.now (S.firsts held.now.sums) (S.seconds held.now.sums) }
{
    detector::steps::in_range(w, S::TOP, held.state) && sums_match(rows, w, &held.sums)
}

// Writes a frame over the row in `slot`, and carries the sums along: a column's sums lose what the slot held and gain
// what replaces it. Entries from `count` on stay, and so do their sums.
fn replace_row<S: ColumnSums>(
    rows: &mut [u8],
    w: usize,
    slot: usize,
    frame: &Frame<S::Entry>,
    carried: &mut S,
)
    requires ring { Ring S.kind.sums w columns rows.old (S.firsts carried.old) (S.seconds carried.old) }
    requires fits { (slot < w) × (frame.now.count ≤ columns) }
    ensures rows_after { ring_rows w columns rows.new ≡ set (ring_rows w columns rows.old) slot (overwrite (get_or (ring_rows w columns rows.old) slot []) (S.entries frame.now.entries) frame.now.count) }
    ensures ring_after { Ring S.kind.sums w columns rows.new (S.firsts carried.new) (S.seconds carried.new) }
{
    let base = slot * COLUMNS;
    let table = S::table();
    for (sc, entry) in frame.entries[..frame.count].iter().enumerate() {
        let at = base + sc;
        let old = window::steps::entry(rows, at);
        let x = S::bits(*entry);
        carried.replace(&table, sc, old, x);
        window::steps::put_entry(rows, at, x);
    }
}

// The mean wander over the first `count` columns, at most the largest wander.
fn mean_wander<S: ColumnSums>(rows: Rows, carried: &S, count: usize) -> u32
    requires le_count { (1 ≤ count) × (count ≤ columns) }
    requires ranges { (sc : ℕ) → sc < columns → S.In rows.w (get_or (S.firsts carried.now) sc S.kind.sums.none) (get_or (S.seconds carried.now) sc S.kind.sums.none) }
    ensures { result ≡ wander_by S.kind S.term rows.w count (S.firsts carried.now) (S.seconds carried.now) }
{
    let mut total = 0u64;
    for sc in 0..count {
        total += u64::from(carried.wander(rows, sc));
    }
    (total / (count as u64)).min(u64::from(S::TOP)) as u32
}

// A full window is judged.
fn settled_state<S: ColumnSums>(
    limits: Limits,
    rows: Rows,
    time: u64,
    s: State,
    carried: &S,
    count: usize,
) -> State
    requires le_count { (1 ≤ count) × (count ≤ columns) }
    requires ranges { (sc : ℕ) → sc < columns → S.In rows.w (get_or (S.firsts carried.now) sc S.kind.sums.none) (get_or (S.seconds carried.now) sc S.kind.sums.none) }
    ensures { result ≡ settled_state limits rows.w time (wander_by S.kind S.term rows.w count (S.firsts carried.now) (S.seconds carried.now)) s }
{
    if (s.filled as u64) < rows.w {
        return s;
    }
    let m = mean_wander(rows, carried, count);
    detector::steps::decide(limits, time, m, s)
}

// One frame. A frame of count 0 repeats the verdict.
pub fn push<S: ColumnSums>(
    rows: &mut [u8],
    w: usize,
    limits: Limits,
    held: &mut Held<S>,
    frame: &Frame<S::Entry>,
) -> Verdict
    requires valid { Valid S.kind w columns held.old.state rows.old (S.firsts held.old.sums) (S.seconds held.old.sums) }
    requires count_le_columns { frame.now.count ≤ columns }
    ensures { Pushes S.kind limits w columns held.old.state rows.old (S.entries frame.now.entries) frame.now.count frame.now.time held.new.state rows.new (S.firsts held.new.sums) (S.seconds held.new.sums) result }
{
    if frame.count == 0 {
        return detector::steps::verdict_now(w, S::UNIT, held.state);
    }
    let start = detector::steps::start_state(held.state, frame.count);
    replace_row(rows, w, start.next, frame, &mut held.sums);
    let fed = detector::steps::next_state(w, start);
    let size = Rows::new(w as u64);
    held.state = settled_state(limits, size, frame.time, fed, &held.sums, frame.count);
    detector::steps::verdict_now(w, S::UNIT, held.state)
}
