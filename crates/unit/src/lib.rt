// What a room unit promises, whatever its detectors are: the written definitions are in specs/, demand 3 and its proof in proofs/.
#![tactic(auto)]

// What a run returns: 0, 2 or 6, the need that goes with 6, and how many answers it wrote and bytes it used.
#[repr(C)]
#[derive(Clone, Copy)]
pub struct Ran {
    pub refusal: u8,
    pub need: usize,
    pub answers: usize,
    pub used: usize,
}
