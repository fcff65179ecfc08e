// How all I/Q pairs fill the amplitudes and the sectors of the circle (docs/SPEC.md, "The pair census").
#![tactic(auto)]

ghost use Rattle.std.specs.Prelude.{◌≡◌, ◌<◌, length};
ghost use Rattle.num.specs.Lists.{tallies, plus};
ghost use Rattle.census.specs.Census.{bytes, signed_byte, sector_of, census};
ghost use Rattle.census.specs.Rows.{row_amplitudes, row_sectors, Countable};

use phase::tables::AtanTable;
use std::array;

// How many numbers a signed byte may be.
const BYTES: usize = 256;

// Amplitudes are 0 to 724.
pub const AMPLITUDES: usize = 725;

pub const SECTORS: usize = 8;

// An eighth of a turn.
const SECTOR: u16 = 8192;

// For each amplitude, and for each sector, how many pairs fall there.
#[repr(C)]
#[derive(Clone, Copy)]
pub struct Census {
    pub amplitude: [u32; AMPLITUDES],
    pub sector: [u32; SECTORS],
}

// The k-th signed byte, from -128 on.
fn signed_byte(k: usize) -> i8
    requires { k < bytes }
    ensures { result ≡ signed_byte k }
{
    (k as i16 - 128) as i8
}

// The amplitudes of the pairs with this imaginary part, the real part from -128 on: in vectors, since there is no division.
fn row_amplitudes(im: i8) -> [u16; BYTES]
    ensures { result ≡ row_amplitudes im }
{
    array::from_fn(|k| csi::steps::amplitude(im, signed_byte(k)))
}

// The sector of an angle: a whole turn is added to a negative one.
fn sector_of(angle: i16) -> u16
    ensures { result ≡ sector_of angle }
{
    angle.cast_unsigned() / SECTOR
}

// The sectors of the same pairs.
fn row_sectors(table: &AtanTable, im: i8) -> [u16; BYTES]
    ensures { result ≡ row_sectors im }
{
    array::from_fn(|k| sector_of(table.angle(im, signed_byte(k))))
}

// Adds to each count how often its place stands in the row.
fn add_row(counts: &mut [u32], row: &[u16; BYTES])
    requires { Countable row.now counts.old }
    ensures { counts.new ≡ plus counts.old (tallies (length counts.old) (λ v. v) row.now) }
{
    for &v in row {
        counts[usize::from(v)] += 1;
    }
}

// All pairs, counted.
pub fn count() -> Census
    ensures { result ≡ census }
{
    let table = AtanTable::new();
    let mut amplitude = [0u32; AMPLITUDES];
    let mut sector = [0u32; SECTORS];
    for k in 0..BYTES {
        let im = signed_byte(k);
        add_row(&mut amplitude, &row_amplitudes(im));
        add_row(&mut sector, &row_sectors(&table, im));
    }
    Census { amplitude, sector }
}
