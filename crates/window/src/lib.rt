// The sliding window: a ring of rows in lent memory. What is summed over its columns is each detector's own.
#![tactic(auto)]

ghost use Rattle.std.specs.Prelude.{◌≡◌, length, replicate};

pub mod steps;

// Entries in a row: one for each subcarrier.
pub const COLUMNS: usize = num::MAX_SUBCARRIERS;

// The most rows that a ring has.
pub const MAX_ROWS: usize = 8192;

// Every entry zero.
pub fn clear(rows: &mut [u8])
    ensures { rows.new ≡ replicate (length rows.old) 0 }
{
    rows.fill(0);
}
