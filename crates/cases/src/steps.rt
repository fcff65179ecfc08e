// The replay of all cases, for a caller whose replay takes any short case.
#![tactic(auto)]

ghost use Rattle.std.specs.Prelude.{◌≤◌, ◌<◌, ◌^◌, length};

use crate::{MOST, next};
use std::io;
use std::io::Input;

// Replays the cases in turn, of at most SIZE bytes each.
pub fn each<const SIZE: usize, F: FnMut(&[u8]) -> io::Result<()>>(
    rt: &impl Input,
    mut replay: F,
) -> io::Result<()>
    requires size { SIZE < 2 ^ 63 }
    requires callable { (state : F) (case : _) → length case.now ≤ SIZE → length case.now < 2 ^ 16 → F.pre state case }
{
    let buf = &mut [0u8; SIZE][..];
    for _ in 0..MOST {
        match next(rt, buf)? {
            Some(case) => replay(case)?,
            None => return Ok(()),
        }
    }
    Ok(())
}
