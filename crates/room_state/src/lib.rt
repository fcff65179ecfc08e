// The unit as the code holds it: a state beside the rows of its rings.
#![tactic(auto)]

pub mod steps;
