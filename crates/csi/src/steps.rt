// Calls for the crates above, which have judged their input once.
ghost use Rattle.std.specs.Prelude.{◌≡◌, true, ◌≤◌, ◌<◌, length, get_or};
ghost use Rattle.csi.specs.Features.{amplitude_of, features_of, normalised_of};
ghost use Rattle.csi.specs.Layout.{max_subcarriers, known, layout_of, entries_of, frame_refusal};

use crate::{Features, Layout};

// The layout of a known tag.
#[tactic(auto, unfolding(crate::specs::Layout::layout_for))]
pub fn layout_of(tag: u8) -> Layout
    requires { known tag ≡ true }
    ensures { result ≡ layout_of tag }
{
    Layout::of(tag).unwrap()
}

// The k-th entry in use (`Layout::indices`).
pub fn entry(layout: Layout, k: usize) -> usize
    requires { k < length (entries_of layout) }
    ensures { result ≡ get_or (entries_of layout) k 0 }
{
    let n = crate::span(layout.start, layout.end);
    if k < n {
        usize::from(layout.start) + k
    } else {
        usize::from(layout.start2) + (k - n)
    }
}

// The amplitude of a pair.
pub fn amplitude(im: i8, re: i8) -> u16
    ensures { result ≡ amplitude_of im re }
{
    crate::amplitude::amplitude(im.cast_unsigned(), re.cast_unsigned())
}

// The features of I/Q bytes that `frame::check` does not refuse under this tag.
pub fn features(iq: &[u8], tag: u8) -> Features
    requires { frame_refusal (length iq.now) tag ≡ 0 }
    ensures { result ≡ features_of iq.now tag }
{
    let layout = layout_of(tag);
    let every = crate::amplitude::every(iq, usize::from(layout.entries));
    crate::moments::picked(&every, layout)
}

// The features divided by their mean; unchanged where the amplitudes sum up to 0.
#[tactic(auto, unfolding(crate::specs::Features::normalised_of))]
pub fn normalised(f: Features) -> Features
    requires { f.count ≤ max_subcarriers }
    ensures { result ≡ normalised_of f }
{
    let total = crate::moments::total_of(f.used());
    if total == 0 {
        return f;
    }
    crate::normal::divided(f.used(), total)
}
