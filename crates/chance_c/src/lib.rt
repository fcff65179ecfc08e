// The call of `chance` from C and Rust. A slice is two parameters there, a pointer and a length.
#![tactic(auto)]

ghost use Rattle.std.specs.Prelude.{◌≡◌};
ghost use Rattle.chance.specs.Chance.{chances_answer};
ghost use Rattle.chance_c.specs.Shown.{shown};

use chance::COUNTS;
use fall::FallConfig;
use refusal::Refusal;

// A refusal's number and zeros, or 0 and how many sequences make 0, 1, .., 24 events.
#[repr(C)]
#[derive(Clone, Copy)]
pub struct Chances {
    pub refusal: u8,
    pub counts: [u64; COUNTS],
}

impl From<Result<[u64; COUNTS], Refusal>> for Chances {
    ghost from_gives = { λ answer chances. chances ≡ shown answer };

    fn from(answer: Result<[u64; COUNTS], Refusal>) -> Chances {
        match answer {
            Ok(counts) => Chances { refusal: 0, counts },
            Err(refusal) => Chances {
                refusal: refusal.number(),
                counts: [0; COUNTS],
            },
        }
    }
}

#[unsafe(no_mangle)]
pub extern "C" fn chance_count(config: FallConfig, choices: &[u16], spacing: u64, n: u64) -> Chances
    ensures { result ≡ shown (chances_answer config choices.now spacing n) }
{
    Chances::from(chance::count(config, choices, spacing, n as usize))
}
