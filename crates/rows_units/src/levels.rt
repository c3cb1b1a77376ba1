//! The levels of the Uno's pins in a row, 14 to 19 being A0 to A5.
ghost use Rattle.std.specs.Prelude.{◌≡◌, ◌+◌, ◌<◌, ℕ, Some};

use sim_base::{Level, MOST_CYCLES};

/// A cycle, and the levels of the pins in the cycle before it and in its own.
#[derive(Drop)]
pub(crate) struct Turn {
    pub(crate) cycle: u64,
    pub(crate) before: [Level; 20],
    pub(crate) now: [Level; 20],
}

impl Turn {
    /// Cycle 0, on Z.
    pub(crate) fn first() -> Turn
        ensures { result.cycle ≡ 0 }
    {
        Turn {
            cycle: 0,
            before: [Level::Z; 20],
            now: [Level::Z; 20],
        }
    }

    /// Goes to the next cycle.
    pub(crate) fn pass(&mut self)
        requires { self.old.cycle < MOST_CYCLES }
        ensures { self.new.cycle ≡ self.old.cycle + 1 }
    {
        self.cycle += 1;
        self.before = self.now;
    }

    /// Sets the level of a pin, or of all: `pin10`, `pins`.
    pub(crate) fn set(&mut self, name: &str, value: &str) -> Option<()>
        ensures { self.new.cycle ≡ self.old.cycle }
    {
        let level = level_of(value)?;
        if name == "pins" {
            self.now = [level; 20];
        } else {
            let pin = pin_of(name.strip_prefix("pin")?)?;
            self.now[pin as usize] = level;
        }
        Some(())
    }
}

/// `L`, `H`, `X`, `Z`, or a wiper's position.
fn level_of(text: &str) -> Option<Level> {
    Some(match text {
        "L" => Level::Low,
        "H" => Level::High,
        "X" => Level::X,
        "Z" => Level::Z,
        _ => Level::Wiped(text.parse::<u16>().ok()?),
    })
}

/// The number of a pin.
pub(crate) fn pin_of(text: &str) -> Option<u8>
    ensures { (pin : ℕ) → result ≡ Some pin → pin < 20 }
{
    let pin = text.parse::<u8>().ok()?;
    if pin < 20 { Some(pin) } else { None }
}
