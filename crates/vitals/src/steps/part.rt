// Sums of a fixed number of products, held in 32 bits. One that is twice as long is two of them, so that the compiler sees no loop: of a loop
// over 64 products it makes half as many a step.
ghost use Rattle.std.specs.Prelude.{◌≡◌, ℕ, ◌+◌, ◌*◌, ◌≤◌, length};
ghost use Rattle.vitals.specs.Steps.{part_of, Summable};

use std::marker::PhantomData;

pub(crate) trait Part {
    // How many products.
    ghost len: { ℕ };

    // The sum of the products of m samples from k on.
    fn sum(a: &[i16], b: &[i16], k: usize, m: usize) -> i32
        requires { (m ≡ len) × (k + m ≤ length a.now) × (k + m ≤ length b.now) × Summable a.now b.now }
        ensures { result ≡ part_of a.now b.now k m };
}

pub(crate) struct One;

impl Part for One {
    ghost len = { 1 };

    fn sum(a: &[i16], b: &[i16], k: usize, _m: usize) -> i32 {
        i32::from(a[k]) * i32::from(b[k])
    }
}

pub(crate) struct Twice<P>(PhantomData<P>);

impl<P: Part> Part for Twice<P> {
    ghost len = { 2 * P.len };

    fn sum(a: &[i16], b: &[i16], k: usize, m: usize) -> i32 {
        let half = m / 2;
        P::sum(a, b, k, half) + P::sum(a, b, k + half, half)
    }
}
