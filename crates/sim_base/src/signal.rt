//! Drives of pins and levels of nets.
ghost use Rattle.std.specs.Prelude.{◌≡◌};
ghost use Rattle.sim_base.specs.Signal.{reads};

/// What a pin puts on its net. `Low` and `High` are strong; the pulls and a wiper are weak.
#[derive(Clone, Copy, Debug, PartialEq, Eq)]
pub enum Drive {
    Z,
    Low,
    High,
    PullLow,
    PullHigh,
    /// A potentiometer's wiper at a position from 0 to 1023.
    Wiper(u16),
}

/// What a net has. `X` is a conflict, `Z` stands where nothing drives.
#[derive(Clone, Copy, Debug, PartialEq, Eq)]
pub enum Level {
    Low,
    High,
    X,
    Z,
    /// A single wiper alone, at its position from 0 to 1023.
    Wiped(u16),
}

/// What an input reads: 1 on `High` and on `Wiped` from 512 on, else 0.
pub fn reads_one(level: Level) -> bool
    ensures { result ≡ reads level }
{
    match level {
        Level::High => true,
        Level::Wiped(position) => position >= 512,
        Level::Low | Level::X | Level::Z => false,
    }
}
