// The program's settings as bytes (docs/LAYOUT.md): each number low byte first.
ghost use Rattle.std.specs.Prelude.{◌≡◌};
ghost use Rattle.roomlines.specs.Settings.{settings_bytes};

use room_memory::SETTINGS_LEN;

const SETTINGS: [u8; SETTINGS_LEN] = [
    // 0: W: 50 frames of a window
    50, 0,
    // 2: N: 128 block means
    128, 0,
    // 4: presence, on: 32 permille
    32, 0,
    // 6: presence, off: 23 permille
    23, 0,
    // 8: presence, hold: 3,000,000 microseconds
    192, 198, 45, 0, 0, 0, 0, 0,
    // 16: phase, on: 380 parts per million
    124, 1, 0, 0,
    // 20: phase, off: 260 parts per million
    4, 1, 0, 0,
    // 24: phase, hold: 3,000,000 microseconds
    192, 198, 45, 0, 0, 0, 0, 0,
    // 32: breathing: 5 frames of a block
    5, 0,
    // 34: breathing: 10 hertz
    10, 0, 0, 0,
    // 38: breathing, band from: 150 millihertz
    150, 0, 0, 0,
    // 42: breathing, band to: 550 millihertz
    38, 2, 0, 0,
    // 46: breathing: 10 blocks from one estimate to the next
    10, 0,
    // 48: breathing: 400 permille to accept
    144, 1,
    // 50: breathing: 0 samples of high-pass
    0, 0,
    // 52: heart: 2 frames of a block
    2, 0,
    // 54: heart: 25 hertz
    25, 0, 0, 0,
    // 58: heart, band from: 700 millihertz
    188, 2, 0, 0,
    // 62: heart, band to: 2,200 millihertz
    152, 8, 0, 0,
    // 66: heart: 25 blocks from one estimate to the next
    25, 0,
    // 68: heart: 400 permille to accept
    144, 1,
    // 70: heart: 25 samples of high-pass
    25, 0,
    // 72: falls, active: 32 permille
    32, 0,
    // 74: falls, burst: 232 permille
    232, 0,
    // 76: falls, still: 30 permille
    30, 0,
    // 78: falls, shortest motion before a burst: 2,000,000 microseconds
    128, 132, 30, 0, 0, 0, 0, 0,
    // 86: falls, quiet grace: 3,000,000 microseconds
    192, 198, 45, 0, 0, 0, 0, 0,
    // 94: falls, settle: 3,000,000 microseconds
    192, 198, 45, 0, 0, 0, 0, 0,
    // 102: falls, still for: 10,000,000 microseconds
    128, 150, 152, 0, 0, 0, 0, 0,
    // 110: falls, refractory: 60,000,000 microseconds
    0, 135, 147, 3, 0, 0, 0, 0,
];

pub fn settings() -> [u8; SETTINGS_LEN]
    ensures { result ≡ settings_bytes }
{
    SETTINGS
}
