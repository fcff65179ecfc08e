// Arrays of one number a column, in memory. The caller has tested the places.
ghost use Rattle.std.specs.Prelude.{◌≡◌, ◌++◌, map, ◌+◌, ◌*◌, ◌≤◌, length, take, drop};
ghost use Rattle.num.specs.Words.{words_in, le_all};
ghost use Rattle.window.specs.Window.{columns};

use num::steps::{Word, put_word, word_at};
use window::COLUMNS;

pub(crate) fn numbers_at<W: Word>(m: &[u8], at: usize) -> [W; COLUMNS]
    requires { at + W.SIZE * columns ≤ length m.now }
    ensures { result ≡ map W.number (words_in W.SIZE columns (drop at m.now)) }
{
    let mut out = [W::default(); COLUMNS];
    for (i, x) in out.iter_mut().enumerate() {
        *x = word_at(m, at + W::SIZE * i);
    }
    out
}

pub(crate) fn put_numbers<W: Word>(m: &mut [u8], at: usize, xs: &[W; COLUMNS])
    requires { at + W.SIZE * columns ≤ length m.old }
    ensures { m.new ≡ take at m.old ++ (le_all W.SIZE (map W.value xs.now) ++ drop (at + W.SIZE * columns) m.old) }
{
    for (i, &x) in xs.iter().enumerate() {
        put_word(m, at + W::SIZE * i, x);
    }
}
