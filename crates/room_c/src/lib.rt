// Calls of room from C and Rust.
#![tactic(auto)]

ghost use Rattle.std.specs.Prelude.{◌≡◌, ◌≤◌, IfOk, IfSome};
ghost use Rattle.unit.specs.Promises.{Begun, RanSo};
ghost use Rattle.room_sensing.specs.Sensing.{room};
ghost use Rattle.room_state.specs.Memory as layout;
ghost use Rattle.room.specs.Steps.{ran_of};
ghost use Rattle.room.specs.Passes.{Passes};
ghost use Rattle.room_c.specs.Calls.{memory_len_of, memory_answer};

use refusal::{Refusal, answered_number};
use room::Ended;
use unit::Ran;

// The length in bytes, with 0 for the refusal; or the refusal's number, with 0 for the length.
#[repr(C)]
#[derive(Clone, Copy)]
pub struct MemoryLen {
    pub refusal: u8,
    pub len: usize,
}

impl From<Result<usize, Refusal>> for MemoryLen {
    ghost from_gives = { λ answer m. m ≡ memory_len_of answer };

    fn from(answer: Result<usize, Refusal>) -> Self {
        MemoryLen {
            refusal: answered_number(answer),
            len: answer.unwrap_or(0),
        }
    }
}

#[unsafe(no_mangle)]
pub extern "C" fn room_memory_len(settings: &[u8]) -> MemoryLen
    ensures { result ≡ memory_answer settings.now }
{
    MemoryLen::from(room::room_memory_len(settings))
}

#[unsafe(no_mangle)]
pub extern "C" fn room_begin(settings: &[u8], memory: &mut [u8]) -> u8
    ensures { Begun room layout.memory settings.now memory.old result memory.new }
{
    answered_number(room::room_begin(settings, memory))
}

// A run's answer in numbers: 6 where space ended it, with its need.
fn ran(answer: Result<Ended, Refusal>) -> Ran
    requires { IfOk answer (λ e. IfSome e.need (λ n. 1 ≤ n)) }
    ensures { result ≡ ran_of answer }
{
    match answer {
        Ok(
            Ended {
                need,
                answers,
                used,
            },
        ) => Ran {
            refusal: need.map_or(0, |_| Refusal::Space.number()),
            need: need.unwrap_or(0),
            answers,
            used,
        },
        Err(refusal) => Ran {
            refusal: refusal.number(),
            need: 0,
            answers: 0,
            used: 0,
        },
    }
}

#[unsafe(no_mangle)]
pub extern "C" fn room_run(memory: &mut [u8], records: &[u8], answers: &mut [u8]) -> Ran
    ensures ran_so { RanSo room layout.memory memory.old records.now answers.old result memory.new answers.new }
    ensures settings_kept { layout.settings_bytes memory.new ≡ layout.settings_bytes memory.old }
    ensures passes { Passes (layout.settings_in memory.old) records.now (layout.unit_in memory.old) result.used (layout.unit_in memory.new) }
{
    ran(room::room_run(memory, records, answers))
}
