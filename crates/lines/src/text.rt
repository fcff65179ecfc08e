// The parts of a line, put behind what it has. The caller sees to the room.
ghost use Rattle.std.specs.Prelude.{◌≡◌, ◌+◌, ◌≤◌, ◌++◌, length};
ghost use Rattle.arrayvec.specs.ArrayString.{array_string_len};
ghost use Rattle.lines.specs.Lines.{line_max, number, verdict_text, rate_text, fall_text};

use crate::LINE_MAX;
use arrayvec::ArrayString;
use itoa::Buffer;

// The number, with a space before it.
pub(crate) fn number(line: &mut ArrayString<LINE_MAX>, n: u64)
    requires { array_string_len line.old + 21 ≤ line_max }
    ensures printed { line.new.bytes ≡ line.old.bytes ++ number n }
    ensures upper_bound { array_string_len line.new ≤ array_string_len line.old + 21 }
{
    let mut buffer = Buffer::new();
    line.push(' ');
    line.push_str(buffer.format(n));
}

// 0 warming, 1 absent, else present; with the word before it.
#[tactic(auto, unfolding(crate::specs::Lines::verdict_text))]
pub(crate) fn verdict(line: &mut ArrayString<LINE_MAX>, tag: u8)
    requires { array_string_len line.old + 13 ≤ line_max }
    ensures printed { line.new.bytes ≡ line.old.bytes ++ verdict_text tag }
    ensures upper_bound { array_string_len line.new ≤ array_string_len line.old + 13 }
{
    match tag {
        0 => line.push_str("watch warming"),
        1 => line.push_str("watch absent"),
        _ => line.push_str("watch present"),
    }
}

// A rate: 0 not due, 1 not accepted, else its number.
#[tactic(auto, unfolding(crate::specs::Lines::rate_text))]
pub(crate) fn rate(line: &mut ArrayString<LINE_MAX>, state: u8, bpm: u16)
    requires { array_string_len line.old + 21 ≤ line_max }
    ensures printed { line.new.bytes ≡ line.old.bytes ++ rate_text state bpm }
    ensures upper_bound { array_string_len line.new ≤ array_string_len line.old + 21 }
{
    match state {
        0 => line.push_str(" -"),
        1 => line.push_str(" ~"),
        _ => number(line, u64::from(bpm)),
    }
}

// A fall: 0 none, else one.
#[tactic(auto, unfolding(crate::specs::Lines::fall_text))]
pub(crate) fn fall(line: &mut ArrayString<LINE_MAX>, fall: u8)
    requires { array_string_len line.old + 5 ≤ line_max }
    ensures printed { line.new.bytes ≡ line.old.bytes ++ fall_text fall }
    ensures upper_bound { array_string_len line.new ≤ array_string_len line.old + 5 }
{
    match fall {
        0 => line.push_str(" -"),
        _ => line.push_str(" fall"),
    }
}
