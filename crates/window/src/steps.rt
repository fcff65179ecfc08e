// Entries and rows of a ring in memory. The caller has tested the memory's length and the places.
ghost use Rattle.std.specs.Prelude.{◌≡◌, [], ◌+◌, ◌*◌, ◌<◌, ◌≤◌, length, get_or, set};
ghost use Rattle.window.specs.Words.{words, put_word};
ghost use Rattle.window.specs.Window.{columns, max_rows, ring_rows, overwrite, row_reciprocal};

use crate::COLUMNS;
use num::steps::{put_word, word_at};

pub mod share;

// 2^45: what the reciprocal of a number of rows is scaled by.
pub(crate) const SCALE: u64 = 35184372088832;

// The entry `at`: two bytes, low byte first.
pub fn entry(rows: &[u8], at: usize) -> u16
    requires { 2 * at + 1 < length rows.now }
    ensures { result ≡ get_or (words rows.now) at 0 }
{
    word_at(rows, 2 * at)
}

pub fn put_entry(rows: &mut [u8], at: usize, v: u16)
    requires { 2 * at + 1 < length rows.old }
    ensures { rows.new ≡ put_word rows.old at v }
{
    put_word(rows, 2 * at, v);
}

// Writes `new` over the front of the row in `slot`. The entries behind it stay.
pub fn write_row(rows: &mut [u8], w: usize, slot: usize, new: &[u16])
    requires { (w ≤ max_rows) × (length rows.old ≡ 2 * (w * columns)) × (slot < w) × (length new.now ≤ columns) }
    ensures { ring_rows w columns rows.new ≡ set (ring_rows w columns rows.old) slot (overwrite (get_or (ring_rows w columns rows.old) slot []) new.now (length new.now)) }
{
    let base = slot * COLUMNS;
    for (sc, v) in new.iter().enumerate() {
        put_entry(rows, base + sc, *v);
    }
}

// What x is multiplied by in place of a division by w, of any number of rows.
pub fn row_reciprocal(w: u64) -> u64
    requires { 1 ≤ w }
    ensures { result ≡ row_reciprocal w }
{
    SCALE / w + 1
}
