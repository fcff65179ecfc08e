// A watched sample, fed to every detector on its ring.
#![tactic(auto)]

mod falls;
mod sample;
pub mod steps;
mod told;
