// The lines that `roomlines` prints for answers of the room (docs/SPEC.md, "roomlines").
#![tactic(auto)]

pub mod steps;
mod text;

// How many bytes an answer is.
pub const ANSWER_LEN: usize = 24;

// Room for any line.
pub const LINE_MAX: usize = 145;
