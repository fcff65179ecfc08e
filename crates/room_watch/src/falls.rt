// The fall machine, fed unless presence is warming.
ghost use Rattle.std.specs.Prelude.{◌≡◌, true, ◌≤◌};
ghost use Rattle.fall_words.specs.Stored.{legal};
ghost use Rattle.room_watch.specs.Watching.{Falls};

use detector::Verdict;
use fall::{FallConfig, FallDetector};
use fall_words::Words;

// Whether the machine, which is lent in words, tells a fall. The verdict and the wander are those of presence.
pub(crate) fn step_fall(
    config: FallConfig,
    words: &mut Words,
    verdict: Verdict,
    wander: u32,
    time: u64,
) -> bool
    requires { (legal words.old ≡ true) × (wander ≤ 65535) }
    ensures { Falls config words.old verdict wander time words.new result }
{
    if let Verdict::Warming = verdict {
        return false;
    }
    let mut machine = FallDetector {
        config,
        phase: words.phase(),
    };
    let event = machine.push_mut(wander as u16, time);
    *words = Words::from(machine.phase);
    event.is_some()
}
