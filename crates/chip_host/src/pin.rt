//! Pins that a chip was given.
ghost use Rattle.std.specs.Prelude.{◌≡◌};
ghost use Rattle.chip_host.specs.Inventory.{with_mode, drive_of};

use sim_base::Drive;

/// What a pin drives, beside its kept value.
#[derive(Clone, Copy)]
pub enum Mode {
    Input,
    Output,
    PullHigh,
    PullLow,
}

/// A pin that `pinInit` gave, with the value that it keeps.
#[derive(Clone, Copy)]
pub struct Pin {
    pub mode: Mode,
    pub high: bool,
}

/// A pin in a mode by its number; 16 and 17 set the value.
pub(crate) fn with_mode(mode: u32, high: bool) -> Pin
    ensures { result ≡ with_mode mode high }
{
    match mode {
        1 => Pin {
            mode: Mode::Output,
            high,
        },
        2 => Pin {
            mode: Mode::PullHigh,
            high,
        },
        3 => Pin {
            mode: Mode::PullLow,
            high,
        },
        16 => Pin {
            mode: Mode::Output,
            high: false,
        },
        17 => Pin {
            mode: Mode::Output,
            high: true,
        },
        _ => Pin {
            mode: Mode::Input,
            high,
        },
    }
}

/// What a pin drives.
pub(crate) fn drive_of(pin: Option<Pin>) -> Drive
    ensures { result ≡ drive_of pin }
{
    match pin {
        Some(
            Pin {
                mode: Mode::Output,
                high: true,
            },
        ) => Drive::High,
        Some(
            Pin {
                mode: Mode::Output,
                high: false,
            },
        ) => Drive::Low,
        Some(
            Pin {
                mode: Mode::PullHigh,
                ..
            },
        ) => Drive::PullHigh,
        Some(
            Pin {
                mode: Mode::PullLow,
                ..
            },
        ) => Drive::PullLow,
        _ => Drive::Z,
    }
}
