// A series of samples with zeros behind it, so that a sum of products in blocks needs no end of its own.
ghost use Rattle.std.specs.Prelude.{◌≡◌, ◌≤◌, ◌<◌, List, ℤ, pos, length, take, set, replicate};
ghost use Rattle.vitals.specs.Series.{centred, highpassed};
ghost use Rattle.vitals.specs.Steps.{ZerosFrom, Samples};

use crate::steps::correlation::BLOCK;
use crate::steps::series::{MAX_SAMPLES, Series, lower};
use std::marker::Model;

// Room for the longest series, and a block of zeros.
const ROOM: usize = MAX_SAMPLES + BLOCK;

// The first n samples of `room`.
#[derive(Drop)]
pub struct Padded {
    pub(crate) room: [i16; ROOM],
    pub(crate) n: usize,
}

impl Model for Padded {
    ghost Value = { List ℤ };

    ghost view = { λ p. take p.n p.room };

    ghost invariant = { λ p. (p.n ≤ 512) × ZerosFrom p.n p.room × Samples p.room };
}

impl Padded {
    // n samples, all 0.
    pub fn zeros(n: usize) -> Padded
        requires { n ≤ 512 }
        ensures { result ≡ replicate n (pos 0) }
    {
        Padded { room: [0; ROOM], n }
    }

    // The sample k becomes v.
    pub fn set(&mut self, k: usize, v: i16)
        requires { k < length self.old }
        ensures { self.new ≡ set self.old k v }
    {
        let room = &mut self.room;
        room[k] = v;
    }

    // Its samples, as a series.
    fn series(&self) -> Series<'_>
        ensures { result.samples.now ≡ self.now }
    {
        Series {
            samples: &self.room[..self.n],
        }
    }

    // The samples less their mean.
    pub fn centre(&mut self)
        requires { 1 ≤ length self.old }
        ensures { self.new ≡ centred self.old }
    {
        let mean = self.series().mean();
        lower(&mut self.room[..self.n], mean);
    }

    // The samples of `x` less their moving average of m, in place of its own.
    pub fn highpass_of(&mut self, x: &Padded, m: usize)
        requires { length self.old ≡ length x.now }
        ensures { self.new ≡ highpassed m x.now }
    {
        x.series().highpass(m, &mut self.room[..self.n]);
    }
}
