//! What parts read of their pins, and what their outputs drive.
ghost use Rattle.std.specs.Prelude.{◌≡◌, ◌<◌, length};
ghost use Rattle.part_reactive.specs.Pins.{at_pin, is_low, reads_at, rises, falls, output, bit};

use sim_base::{Drive, Level, reads_one};

/// Whether the level at a pin is Low.
pub fn is_low(levels: &[Level], pin: usize) -> bool
    requires { pin < length levels.now }
    ensures { result ≡ is_low (at_pin levels.now pin) }
{
    levels[pin] == Level::Low
}

/// Whether a pin reads 1.
pub fn reads_at(levels: &[Level], pin: usize) -> bool
    requires { pin < length levels.now }
    ensures { result ≡ reads_at levels.now pin }
{
    reads_one(levels[pin])
}

/// Whether a pin reads 1 and read 0 in the step before.
pub fn rises(before: &[Level], now: &[Level], pin: usize) -> bool
    requires before { pin < length before.now }
    requires now { pin < length now.now }
    ensures { result ≡ rises before.now now.now pin }
{
    reads_at(now, pin) && !reads_at(before, pin)
}

/// Whether a pin reads 0 and read 1 in the step before.
pub fn falls(before: &[Level], now: &[Level], pin: usize) -> bool
    requires before { pin < length before.now }
    requires now { pin < length now.now }
    ensures { result ≡ falls before.now now.now pin }
{
    reads_at(before, pin) && !reads_at(now, pin)
}

/// What an output drives.
pub fn output(high: bool) -> Drive
    ensures { result ≡ output high }
{
    if high { Drive::High } else { Drive::Low }
}

/// Bit k of a number, from the lowest on.
pub fn bit(k: u8, n: u8) -> bool
    requires { k < 8 }
    ensures { result ≡ bit k n }
{
    (n >> k) % 2 == 1
}
