//! The size of a chip's display.
ghost use Rattle.std.specs.Prelude.{◌≡◌, ◌≤◌, ◌*◌, if◌then◌else◌, Some, None};
ghost use Rattle.sim_base.specs.Display.{DisplaySize, is_display};

use std::marker::Model;

/// How many pixels a display has at most (profile).
const MOST_PIXELS: u64 = 65_536;

/// The width and the height of a chip's display in pixels: at least 1 each, and at most 65,536
/// pixels in all.
#[derive(Clone, Copy, Debug)]
pub struct Display {
    width: u32,
    height: u32,
}

impl Model for Display {
    ghost use Rattle.std.specs.Prelude.{◌≡◌, true};
    ghost use Rattle.sim_base.specs.Display.{DisplaySize, is_display};

    ghost Value = { DisplaySize };

    ghost view = { λ d. record { width = d.width; height = d.height } };

    ghost inverse = { λ d. record { width = d.width; height = d.height } };

    ghost invariant = { λ d. is_display d.width d.height ≡ true };
}

impl Display {
    /// The display of this size; None exactly where no display has it.
    pub fn new(width: u32, height: u32) -> Option<Display>
        ensures { result ≡ (if is_display width height then Some (record { width = width; height = height }) else None) }
    {
        let pixels = u64::from(width) * u64::from(height);
        if width >= 1 && height >= 1 && pixels <= MOST_PIXELS {
            Some(Display { width, height })
        } else {
            None
        }
    }

    /// How many pixels a row has.
    pub fn width(&self) -> u32
        ensures { result ≡ self.now.width }
    {
        self.width
    }

    /// How many rows there are.
    pub fn height(&self) -> u32
        ensures { result ≡ self.now.height }
    {
        self.height
    }
}
