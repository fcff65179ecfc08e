// A full window in its ring.
ghost use Rattle.std.specs.Prelude.{◌≡◌, ◌≤◌, ◌<◌, length};
ghost use Rattle.window.specs.Window.{columns};
ghost use Rattle.estimator.specs.State.{ring_length};

// The ring's rows, how many they are, the slot to write next, which has the oldest row, and the columns in use.
#[derive(Clone, Copy)]
pub(crate) struct View<'a> {
    pub(crate) rows: &'a [u8],
    pub(crate) n: usize,
    pub(crate) next: usize,
    pub(crate) count: usize,
    ghost few: { n ≤ 512 },
    ghost whole: { length rows.now ≡ ring_length n },
    ghost inside: { next < n },
    ghost narrow: { count ≤ columns },
}
