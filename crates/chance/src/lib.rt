// How often chance makes a fall (docs/SPEC.md, "How often chance makes a fall"): of all sequences of wander values out of one to four choices, how
// many make how many events. There are up to 4^24 sequences, so frames are taken from the last to the first, with a count for each state that the
// machine can be in and each number of events.
#![tactic(auto)]

ghost use Rattle.std.specs.Prelude.{◌≡◌, true, ◌*◌, ◌≤◌, ◌<◌, length};
ghost use Rattle.refusal.specs.Refusal.{answered_number};
ghost use Rattle.chance.specs.Chance.{chances_answer, chances_refusal, max_spacing, max_frames, max_choices, counts_of};
ghost use Rattle.chance.specs.Marks.{phase_of, next_mark, reached, places, place_of, mark_at, ways_at, empty_table, stepped, term_of, sum_of, entry_of, table_of, resting_counts, Whole};

use fall::{FallConfig, FallDetector, Phase, Pushed};
use refusal::Refusal;
use std::array;

pub const CHOICES: usize = 4;

pub const FRAMES: usize = 24;

// Microseconds.
pub const SPACING: u64 = 1000000000;

// 0 to 24 events.
pub const COUNTS: usize = 25;

// The places of a table: rows of 24, and `Resting` last.
const MOVING: usize = 24 * FRAMES;

const BURSTING: usize = 25 * FRAMES;

const LYING: usize = 26 * FRAMES;

const WAITING: usize = 27 * FRAMES;

const RESTING: usize = 28 * FRAMES;

const PLACES: usize = 28 * FRAMES + 1;

// 0 to 5 events: 24 frames make no more.
const LAYERS: usize = 6;

const ENTRIES: usize = LAYERS * PLACES;

// A state of the machine, with frames for times.
#[derive(Clone, Copy)]
enum Mark {
    Resting,
    Moving(usize),
    Calming(usize, usize),
    Bursting(usize),
    Lying(usize),
    Waiting(usize),
}

impl Mark {
    // Whether frame j can meet it.
    #[tactic(auto, unfolding(crate::specs::Marks::reached))]
    fn reached(self, j: usize) -> bool
        ensures { result ≡ reached j self }
    {
        match self {
            Mark::Resting => true,
            Mark::Calming(a, q) => a <= q && q < j,
            Mark::Moving(a) | Mark::Bursting(a) | Mark::Lying(a) | Mark::Waiting(a) => a < j,
        }
    }

    // That of the state that frame j led to: a part that this state has began where it did, any other at frame j.
    #[tactic(auto, unfolding(crate::specs::Marks::next_mark))]
    fn next(self, j: usize, phase: Phase) -> Mark
        ensures { result ≡ next_mark self j phase }
    {
        match (self, phase) {
            (_, Phase::Idle) => Mark::Resting,
            (
                Mark::Moving(a) | Mark::Calming(a, _),
                Phase::Active {
                    quiet_since: None,
                    ..
                },
            ) => Mark::Moving(a),
            (
                _,
                Phase::Active {
                    quiet_since: None,
                    ..
                },
            ) => Mark::Moving(j),
            (Mark::Calming(a, q), Phase::Active { .. }) => Mark::Calming(a, q),
            (Mark::Moving(a), Phase::Active { .. }) => Mark::Calming(a, j),
            (_, Phase::Active { .. }) => Mark::Calming(j, j),
            (Mark::Bursting(b), Phase::Burst { .. }) => Mark::Bursting(b),
            (_, Phase::Burst { .. }) => Mark::Bursting(j),
            (Mark::Lying(l), Phase::Settling { .. }) => Mark::Lying(l),
            (_, Phase::Settling { .. }) => Mark::Lying(j),
            (Mark::Waiting(e), Phase::Refractory { .. }) => Mark::Waiting(e),
            (_, Phase::Refractory { .. }) => Mark::Waiting(j),
        }
    }

    #[tactic(auto, unfolding(crate::specs::Marks::place_of, crate::specs::Marks::reached))]
    fn place(self) -> usize
        requires { reached max_frames self ≡ true }
        ensures place { result ≡ place_of self }
        ensures small { result < places }
    {
        match self {
            Mark::Resting => RESTING,
            Mark::Moving(a) => MOVING + a,
            Mark::Calming(a, q) => a * FRAMES + q,
            Mark::Bursting(b) => BURSTING + b,
            Mark::Lying(l) => LYING + l,
            Mark::Waiting(e) => WAITING + e,
        }
    }

    #[tactic(auto, unfolding(crate::specs::Marks::mark_at))]
    fn at(place: usize) -> Mark
        ensures { result ≡ mark_at place }
    {
        let row = place / FRAMES;
        let column = place % FRAMES;
        if row < FRAMES {
            return Mark::Calming(row, column);
        }
        match row {
            24 => Mark::Moving(column),
            25 => Mark::Bursting(column),
            26 => Mark::Lying(column),
            27 => Mark::Waiting(column),
            _ => Mark::Resting,
        }
    }
}

// The count for k events at place x.
#[tactic(auto, unfolding(crate::specs::Marks::ways_at), using(crate::proofs::Tables::past))]
fn ways_at(table: &[u64; ENTRIES], k: usize, x: usize) -> u64
    requires { x < places }
    ensures { result ≡ ways_at table.now k x }
{
    if LAYERS <= k {
        return 0;
    }
    table[k * PLACES + x]
}

// What `count` is asked, within its limits.
#[derive(Clone, Copy)]
struct Question<'a> {
    config: FallConfig,
    choices: &'a [u16],
    spacing: u64,
    frames: usize,
    ghost few: { length choices.now ≤ max_choices },
    ghost near: { spacing ≤ max_spacing },
    ghost within: { frames ≤ max_frames },
}

impl Question<'_> {
    // The time of a frame.
    fn time(&self, frame: usize) -> u64
        requires { frame < max_frames }
        ensures { result ≡ frame * self.now.spacing }
    {
        frame as u64 * self.spacing
    }

    // The state that a mark stands for.
    #[tactic(auto, unfolding(crate::specs::Marks::phase_of, crate::specs::Marks::reached))]
    fn phase_of(&self, m: Mark) -> Phase
        requires { reached max_frames m ≡ true }
        ensures { result ≡ phase_of self.now.config self.now.spacing m }
    {
        match m {
            Mark::Resting => Phase::Idle,
            Mark::Moving(a) => Phase::Active {
                since: self.time(a),
                quiet_since: None,
            },
            Mark::Calming(a, q) => Phase::Active {
                since: self.time(a),
                quiet_since: Some(self.time(q)),
            },
            Mark::Bursting(b) => Phase::Burst {
                at: self.time(b),
                peak: 0,
            },
            Mark::Lying(l) => Phase::Settling {
                burst_at: 0,
                peak: 0,
                still_since: self.time(l),
            },
            Mark::Waiting(e) => Phase::Refractory {
                until: self.time(e).saturating_add(self.config.refractory),
            },
        }
    }

    // How many of all sequences make 0, 1, .., 24 events.
    #[tactic(auto, using(crate::proofs::Tables::all_taken))]
    fn counts(&self) -> [u64; COUNTS]
        ensures { result ≡ counts_of self.now.config self.now.choices.now self.now.spacing self.now.frames }
    {
        let mut table = empty_table();
        for frame in (0..self.frames).rev() {
            let front = Front {
                question: *self,
                frame,
                behind: &table,
            };
            table = front.table();
        }
        resting_counts(&table)
    }
}

// A frame in front of others, with the table for the frames behind it.
#[derive(Clone, Copy)]
struct Front<'a> {
    question: Question<'a>,
    frame: usize,
    behind: &'a [u64; ENTRIES],
    ghost within: { frame < max_frames },
    ghost whole: { Whole behind.now },
}

impl Front<'_> {
    // How many sequences from a mark on make k events, at a mark that the frame can meet; nothing is counted at the others.
    #[tactic(auto, unfolding(crate::specs::Marks::entry_of))]
    fn entry(&self, k: usize, mark: Mark) -> u64
        ensures { result ≡ entry_of self.now.question.config self.now.question.spacing self.now.frame self.now.question.choices.now self.now.behind.now k mark }
    {
        if mark.reached(self.frame) {
            Met { front: *self, mark }.sum(k)
        } else {
            0
        }
    }

    // The table of the frame and those behind it.
    fn table(&self) -> [u64; ENTRIES]
        ensures { result ≡ table_of self.now.question.config self.now.question.spacing self.now.frame self.now.question.choices.now self.now.behind.now }
    {
        array::from_fn(|p| self.entry(p / PLACES, Mark::at(p % PLACES)))
    }
}

// A frame in front, with a mark that it can meet.
#[derive(Clone, Copy)]
struct Met<'a> {
    front: Front<'a>,
    mark: Mark,
    ghost met: { reached front.frame mark ≡ true },
}

impl Met<'_> {
    // The machine after the frame with this wander.
    #[tactic(auto, unfolding(crate::specs::Marks::stepped), using(crate::proofs::Marks::met_later))]
    fn stepped(&self, wander: u16) -> Pushed
        ensures { result ≡ stepped self.now.front.question.config self.now.front.question.spacing self.now.front.frame self.now.mark wander }
    {
        let Met { front, mark } = *self;
        let machine = FallDetector {
            config: front.question.config,
            phase: front.question.phase_of(mark),
        };
        machine.push(wander, front.question.time(front.frame))
    }

    // How many sequences that begin with this wander make k events, by the table for those without it.
    #[tactic(auto, using(crate::proofs::Marks::met_next, crate::proofs::Tables::term_none, crate::proofs::Tables::term_some))]
    fn term(&self, k: usize, wander: u16) -> u64
        ensures { result ≡ term_of self.now.front.question.config self.now.front.question.spacing self.now.front.frame self.now.front.behind.now k self.now.mark wander }
    {
        let Met { front, mark } = *self;
        let pushed = self.stepped(wander);
        let place = mark.next(front.frame, pushed.detector.phase).place();
        let events = usize::from(pushed.suspicion.is_some());
        if k < events {
            return 0;
        }
        ways_at(front.behind, k - events, place)
    }

    // The same for all choices.
    #[tactic(auto, using(crate::proofs::Tables::term_small))]
    fn sum(&self, k: usize) -> u64
        ensures { result ≡ sum_of self.now.front.question.config self.now.front.question.spacing self.now.front.frame self.now.front.question.choices.now self.now.front.behind.now k self.now.mark }
    {
        let mut sum = 0;
        for wander in self.front.question.choices {
            sum += self.term(k, *wander);
        }
        sum
    }
}

// No frame: one sequence from each state, without an event.
fn empty_table() -> [u64; ENTRIES]
    ensures { result ≡ empty_table }
{
    array::from_fn(|p| u64::from(p < PLACES))
}

// The counts of a new machine.
fn resting_counts(table: &[u64; ENTRIES]) -> [u64; COUNTS]
    ensures { result ≡ resting_counts table.now }
{
    array::from_fn(|k| ways_at(table, k, RESTING))
}

// How many of all sequences of n choices, `spacing` microseconds apart, make 0, 1, .., 24 events. Refused: no choice or more than four, more than 24
// frames, or a spacing above 1,000,000,000.
#[tactic(auto, unfolding(crate::specs::Chance::chances_answer, crate::specs::Chance::allowed))]
pub fn count(
    config: FallConfig,
    choices: &[u16],
    spacing: u64,
    n: usize,
) -> Result<[u64; COUNTS], Refusal>
    ensures answer { result ≡ chances_answer config choices.now spacing n }
    ensures number { answered_number result ≡ chances_refusal (length choices.now) spacing n }
{
    if choices.is_empty() || choices.len() > CHOICES || n > FRAMES || spacing > SPACING {
        return Err(Refusal::Chance);
    }
    let question = Question {
        config,
        choices,
        spacing,
        frames: n,
    };
    Ok(question.counts())
}
