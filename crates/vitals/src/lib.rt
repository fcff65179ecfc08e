// Breathing and heart rate from the rhythm of the channel's amplitudes (vitals.rs): the settings, and the numbers of an
// estimate. The estimator itself is the crate `estimator`.
#![tactic(auto)]

pub mod band;
pub mod config;
pub mod steps;
