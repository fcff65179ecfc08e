// Prints the pair census: a line for each amplitude, then for each sector, with its number and how many pairs fall there.
#![tactic(auto)]

use std::io;

fn main(rt: HostRuntime) -> io::Result<()> {
    let census = census::count();
    cases::list(&rt, "amplitude", &census.amplitude)?;
    cases::list(&rt, "sector", &census.sector)
}
