// The calls of `tables` from C and Rust.
#![tactic(auto)]

ghost use Rattle.std.specs.Prelude.{◌≡◌};
ghost use Rattle.tables.specs.Tables.{atan_table, sine_table};

use tables::steps::{fill_atan, fill_sine};
use tables::{COARSE_ENTRIES, FINE_ENTRIES};

#[unsafe(no_mangle)]
pub extern "C" fn tables_atan_256(out: &mut [u16; COARSE_ENTRIES])
    ensures { out.new ≡ atan_table 256 }
{
    fill_atan::<COARSE_ENTRIES>(out);
}

#[unsafe(no_mangle)]
pub extern "C" fn tables_atan_1024(out: &mut [u16; FINE_ENTRIES])
    ensures { out.new ≡ atan_table 1024 }
{
    fill_atan::<FINE_ENTRIES>(out);
}

#[unsafe(no_mangle)]
pub extern "C" fn tables_sine_256(out: &mut [u16; COARSE_ENTRIES])
    ensures { out.new ≡ sine_table 256 }
{
    fill_sine::<COARSE_ENTRIES>(out);
}

#[unsafe(no_mangle)]
pub extern "C" fn tables_sine_1024(out: &mut [u16; FINE_ENTRIES])
    ensures { out.new ≡ sine_table 1024 }
{
    fill_sine::<FINE_ENTRIES>(out);
}
