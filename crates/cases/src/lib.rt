// What the programs that replay recorded cases share: cases read from standard input, a list printed, and a check sum.
#![tactic(auto)]

ghost use Rattle.std.specs.Prelude.{◌≡◌, ◌<◌, ◌≤◌, ◌^◌, ℕ, List, IfOk, IfSome, length};
ghost use Rattle.cases.specs.Cases.{word_or_0, words_in_front, check_sum};
ghost use Rattle.std.specs.List.{AllZip};

use num::steps::word_at;
use std::io::{ErrorKind, Input, Read};
use std::{array, io};

pub mod steps;

// Fills `buf` from standard input; false if the input ends before.
fn fill(rt: &impl Input, buf: &mut [u8]) -> io::Result<bool> {
    match rt.reader().read_exact(buf) {
        Ok(()) => Ok(true),
        Err(e) if e.kind() == ErrorKind::UnexpectedEof => Ok(false),
        Err(e) => Err(e),
    }
}

// Reads the next case to the front of `buf`; none at the end of the cases. A case is its length in two bytes, low byte first, and its
// bytes. One that is longer than `buf` ends the cases.
pub fn next<'b>(rt: &impl Input, buf: &'b mut [u8]) -> io::Result<Option<&'b [u8]>>
    ensures in_two_bytes { IfOk result (λ case. IfSome case (λ bytes. length bytes.now < 2 ^ 16)) }
    ensures in_buf { IfOk result (λ case. IfSome case (λ bytes. length bytes.now ≤ length buf.old)) }
{
    let mut head = [0u8; 2];
    if !fill(rt, &mut head)? {
        return Ok(None);
    }
    let n = u16::from_le_bytes(head) as usize;
    if buf.len() < n {
        return Ok(None);
    }
    let case = &mut buf[..n];
    if !fill(rt, case)? {
        return Ok(None);
    }
    Ok(Some(case))
}

// The most cases that are replayed.
pub const MOST: usize = 100000;

// The word of 16 bits at a place, low byte first; behind the last one 0.
fn word_or_0(bytes: &[u8], place: usize) -> u16
    ensures { result ≡ word_or_0 bytes.now place }
{
    if place < bytes.len() / 2 {
        word_at(bytes, 2 * place)
    } else {
        0
    }
}

// The first words in `bytes`, and zeros behind them.
pub fn words<const N: usize>(bytes: &[u8]) -> [u16; N]
    ensures { result ≡ words_in_front N bytes.now }
{
    array::from_fn(|place| word_or_0(bytes, place))
}

// Prints a list: a line for each number, with the list's name and the number's place.
pub fn list<T: Copy + Into<u64>>(rt: &impl Print, name: &str, numbers: &[T]) -> io::Result<()> {
    for (place, &n) in numbers.iter().enumerate() {
        let n: u64 = n.into();
        println!(rt; "{name} {place} {n}")?;
    }
    Ok(())
}

// A check sum: of each number times its place, counted from 1, modulo 2^32. Going back from the last, each place adds the sum of the numbers
// from there on.
pub fn check<T: Copy + Into<u32>>(numbers: &[T]) -> u32
    ensures { (values : List ℕ) × AllZip T.converts numbers.now values × (result ≡ check_sum values) }
{
    let mut behind = 0u32;
    let mut sum = 0u32;
    for &n in numbers.iter().rev() {
        behind = behind.wrapping_add(n.into());
        sum = sum.wrapping_add(behind);
    }
    sum
}
