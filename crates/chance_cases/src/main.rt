// Replays recorded questions of how often chance makes a fall: a line for each. `stdout` holds the counts of the Rust's machine.
#![tactic(auto)]

use chance::COUNTS;
use fall::CONFIG_LEN;
use fall::steps::config_at;
use num::steps::word_at;
use refusal::Refusal;
use std::io;

// The choices begin behind the settings, the spacing and the number of frames.
const HEAD: usize = CONFIG_LEN + 16;

// More choices than can be asked for.
const MOST_CHOICES: usize = 8;

const LONGEST: usize = HEAD + 2 * MOST_CHOICES;

fn line(rt: &impl Print, answer: Result<[u64; COUNTS], Refusal>) -> io::Result<()> {
    match answer {
        Ok(counts) => {
            print!(rt; "chances")?;
            for count in &counts {
                print!(rt; " {count}")?;
            }
            println!(rt; "")
        }
        Err(refusal) => println!(rt; "{refusal}"),
    }
}

// A case: the settings, the spacing and the number of frames (8 bytes each), then the choices, two bytes each.
fn replay(rt: &impl Print, case: &[u8]) -> io::Result<()> {
    if !(HEAD..=LONGEST).contains(&case.len()) {
        return Ok(());
    }
    let choices = cases::words::<MOST_CHOICES>(&case[HEAD..]);
    let k = (case.len() - HEAD) / 2;
    let spacing = word_at(case, CONFIG_LEN);
    let n = word_at::<u64>(case, CONFIG_LEN + 8) as usize;
    line(
        rt,
        chance::count(config_at(case, 0), &choices[..k], spacing, n),
    )
}

fn main(rt: HostRuntime) -> io::Result<()> {
    cases::steps::each::<LONGEST, _>(&rt, |case| replay(&rt, case))
}
