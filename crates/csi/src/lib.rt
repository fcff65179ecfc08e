// Amplitudes of a channel sample (csi.rs).
#![tactic(auto)]

ghost use Rattle.std.specs.Prelude.{◌≡◌, ◌-◌, ◌≤◌, length};
ghost use Rattle.csi.specs.Features.{count_check, normalised_answer, used};
ghost use Rattle.csi.specs.Layout.{max_subcarriers, layout_for, entries_of, need_of};

use refusal::Refusal;

mod amplitude;
pub mod frame;
mod moments;
mod normal;
pub mod steps;

// The most subcarriers that features hold.
pub const MAX_SUBCARRIERS: usize = num::MAX_SUBCARRIERS;

// Which entries of the I/Q bytes carry data: start to end and start2 to end2, without the upper ends. Entry k is the bytes
// 2k (imaginary) and 2k + 1 (real); `entries` is how many of them the bytes hold.
#[derive(Clone, Copy, Debug, PartialEq, Eq)]
pub struct Layout {
    pub start: u8,
    pub end: u8,
    pub start2: u8,
    pub end2: u8,
    pub entries: u8,
}

// The highest layout tag.
const TAGS: usize = 4;

// The layouts of the tags 1 to 4: LLTF_20MHZ, HTLTF_20MHZ, C6_HT20_NATURAL, DENSE_64.
const LAYOUTS: [Layout; TAGS] = [
    Layout::LLTF_20MHZ,
    Layout::HTLTF_20MHZ,
    Layout::C6_HT20_NATURAL,
    Layout::DENSE_64,
];

// How many numbers a range has.
fn span(start: u8, end: u8) -> usize
    ensures { result ≡ end - start }
{
    usize::from(end.saturating_sub(start))
}

impl Layout {
    pub const LLTF_20MHZ: Layout = Layout {
        start: 1,
        end: 27,
        start2: 38,
        end2: 64,
        entries: 64,
    };

    pub const HTLTF_20MHZ: Layout = Layout {
        start: 1,
        end: 29,
        start2: 36,
        end2: 64,
        entries: 64,
    };

    pub const C6_HT20_NATURAL: Layout = Layout {
        start: 4,
        end: 32,
        start2: 33,
        end2: 61,
        entries: 64,
    };

    pub const DENSE_64: Layout = Layout {
        start: 0,
        end: 64,
        start2: 64,
        end2: 64,
        entries: 64,
    };

    // The layout of a tag, if it has one.
    #[tactic(auto, unfolding(crate::specs::Layout::layout_for, crate::specs::Layout::known, crate::specs::Layout::layouts, crate::specs::Layout::layout_of))]
    pub fn of(tag: u8) -> Option<Self>
        ensures { result ≡ layout_for tag }
    {
        let row = usize::from(tag).checked_sub(1)?;
        LAYOUTS.get(row).copied()
    }

    // The number of entries in use.
    pub fn count(self) -> usize
        ensures { result ≡ length (entries_of self) }
    {
        span(self.start, self.end) + span(self.start2, self.end2)
    }

    // The number of I/Q bytes that it needs.
    pub(crate) fn need(self) -> usize
        ensures { result ≡ need_of self }
    {
        2 * usize::from(self.entries)
    }
}

// Amplitudes, of which the first `count` are in use, with their mean and variance.
#[repr(C)]
#[derive(Clone, Copy)]
pub struct Features {
    pub amplitude: [u16; MAX_SUBCARRIERS],
    pub count: u8,
    pub mean: u16,
    pub variance: u32,
}

impl Features {
    // The amplitudes in use.
    pub(crate) fn used(&self) -> &[u16]
        requires { self.now.count ≤ max_subcarriers }
        ensures { result.now ≡ used self.now }
    {
        &self.amplitude[..usize::from(self.count)]
    }

    // Whether no more than 64 amplitudes are said to be in use.
    pub fn check(&self) -> Result<(), Refusal>
        ensures { result ≡ count_check self.now }
    {
        if MAX_SUBCARRIERS < usize::from(self.count) {
            return Err(Refusal::Count);
        }
        Ok(())
    }

    // The same features divided by their mean; unchanged where the amplitudes sum up to 0. Refused as by `check`.
    #[tactic(auto, unfolding(crate::specs::Features::normalised_answer))]
    pub fn normalised(self) -> Result<Features, Refusal>
        ensures { result ≡ normalised_answer self }
    {
        self.check()?;
        Ok(steps::normalised(self))
    }
}
