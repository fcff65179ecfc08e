// The room in definitions (docs/SPEC.md): its settings, the memory that they need, its kinds of record, the judgement of its samples, its answers.
#![tactic(auto)]

pub mod answer;
pub mod kind;
pub mod memory;
pub mod sample;
pub mod settings;
pub mod steps;
