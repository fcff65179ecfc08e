// Prints the four tables, a line for each entry: the table, its steps, the place, the entry.
#![tactic(auto)]

use std::io;
use tables::steps::{atan, sine};
use tables::{COARSE_ENTRIES, FINE_ENTRIES};

fn main(rt: HostRuntime) -> io::Result<()> {
    cases::list(&rt, "atan 256", &atan::<COARSE_ENTRIES>())?;
    cases::list(&rt, "atan 1024", &atan::<FINE_ENTRIES>())?;
    cases::list(&rt, "sine 256", &sine::<COARSE_ENTRIES>())?;
    cases::list(&rt, "sine 1024", &sine::<FINE_ENTRIES>())
}
