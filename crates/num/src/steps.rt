// Bytes and little-endian words in slices. The caller has tested the places.
ghost use Rattle.std.specs.Prelude.{◌≡◌, ℕ, ◌+◌, ◌≤◌, ◌++◌, length, drop};
ghost use Rattle.num.specs.Words.{le, le_at, le_bytes, put_le};
ghost use Rattle.num.specs.Wrap.{signed32, bits32};

// Copies `src` to the front of `dst`, and leaves the rest of `dst`.
pub fn put(src: &[u8], dst: &mut [u8])
    requires { length src.now ≤ length dst.old }
    ensures { dst.new ≡ src.now ++ drop (length src.now) dst.old }
{
    for (i, byte) in src.iter().enumerate() {
        dst[i] = *byte;
    }
}

// A number that stands in SIZE bytes, the lowest first.
pub trait Word: Copy + Default {
    ghost SIZE: { ℕ };

    // The number that a word stands for, and the word of a number.
    ghost number: { ℕ → Self };

    ghost value: { Self → ℕ };

    const SIZE: usize;

    fn of_bytes(bytes: &[u8]) -> Self
        requires { length bytes.now ≡ SIZE }
        ensures { result ≡ number (le bytes.now) };

    fn write(self, bytes: &mut [u8])
        requires { length bytes.old ≡ SIZE }
        ensures { bytes.new ≡ le_bytes SIZE (value self) };
}

impl Word for u16 {
    ghost SIZE = { 2 };

    ghost number = { λ n. n };

    ghost value = { λ n. n };

    const SIZE: usize = 2;

    fn of_bytes(bytes: &[u8]) -> u16 {
        u16::from_le_bytes([bytes[0], bytes[1]])
    }

    fn write(self, bytes: &mut [u8]) {
        bytes.copy_from_slice(&u16::to_le_bytes(self));
    }
}

impl Word for u32 {
    ghost SIZE = { 4 };

    ghost number = { λ n. n };

    ghost value = { λ n. n };

    const SIZE: usize = 4;

    fn of_bytes(bytes: &[u8]) -> u32 {
        u32::from_le_bytes([bytes[0], bytes[1], bytes[2], bytes[3]])
    }

    fn write(self, bytes: &mut [u8]) {
        bytes.copy_from_slice(&u32::to_le_bytes(self));
    }
}

impl Word for u64 {
    ghost SIZE = { 8 };

    ghost number = { λ n. n };

    ghost value = { λ n. n };

    const SIZE: usize = 8;

    fn of_bytes(bytes: &[u8]) -> u64 {
        u64::from_le_bytes([
            bytes[0], bytes[1], bytes[2], bytes[3], bytes[4], bytes[5], bytes[6], bytes[7],
        ])
    }

    fn write(self, bytes: &mut [u8]) {
        bytes.copy_from_slice(&u64::to_le_bytes(self));
    }
}

impl Word for i32 {
    ghost SIZE = { 4 };

    ghost number = { signed32 };

    ghost value = { bits32 };

    const SIZE: usize = 4;

    fn of_bytes(bytes: &[u8]) -> i32 {
        u32::of_bytes(bytes).cast_signed()
    }

    fn write(self, bytes: &mut [u8]) {
        self.cast_unsigned().write(bytes);
    }
}

// The word at a place, and a word written at one.
pub fn word_at<W: Word>(s: &[u8], at: usize) -> W
    requires { at + W.SIZE ≤ length s.now }
    ensures { result ≡ W.number (le_at s.now at W.SIZE) }
{
    W::of_bytes(&s[at..at + W::SIZE])
}

pub fn put_word<W: Word>(s: &mut [u8], at: usize, v: W)
    requires { at + W.SIZE ≤ length s.old }
    ensures { s.new ≡ put_le W.SIZE s.old at (W.value v) }
{
    v.write(&mut s[at..at + W::SIZE]);
}
