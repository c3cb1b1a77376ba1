//! The seven-segment digit.
ghost use Rattle.std.specs.Prelude.{◌≡◌, ◌<◌, ◌==◌, length};
ghost use Rattle.parts_display.specs.Seven.{dark, is_lit, lit_segments};

use crate::halves::half;
use part_catalog::Settings;
use part_reactive::{Behaviour, is_low, reads_at};
use sim_base::{Drive, Level};
use std::marker::Model;

// behind the segments A to G and DP stands COM, and then COM.1 and COM.2, which are joined with it
const COM: usize = 8;

/// A digit of seven segments and a point, with a common anode or a common cathode.
#[derive(Drop)]
pub struct Seven {
    cathode: bool,
    segments: u8,
}

impl Model for Seven {
    ghost use Rattle.parts_display.specs.Seven.{SevenState};

    ghost Value = { SevenState };

    ghost view = { λ a. record { cathode = a.cathode; segments = a.segments } };
}

impl Seven {
    /// A dark one; `choice` of the settings is 0 for a common anode and 1 for a common cathode.
    pub fn new(settings: Settings) -> Self
        ensures { result ≡ dark settings }
    {
        Seven {
            cathode: settings.choice == 1,
            segments: 0,
        }
    }

    /// The lit segments: A in bit 0 to G in bit 6, DP in bit 7.
    pub fn segments(&self) -> u8
        ensures { result ≡ self.now.segments }
    {
        self.segments
    }
}

// Whether current could flow through a segment.
fn is_lit(cathode: bool, levels: &[Level], segment: usize) -> bool
    requires pins { length levels.now ≡ 11 }
    requires segment { segment < 8 }
    ensures { result ≡ is_lit cathode levels.now segment }
{
    if cathode {
        is_low(levels, COM) && reads_at(levels, segment)
    } else {
        reads_at(levels, COM) && is_low(levels, segment)
    }
}

fn lit_segments(cathode: bool, levels: &[Level]) -> u8
    requires pins { length levels.now ≡ 11 }
    ensures { result ≡ lit_segments cathode levels.now }
{
    let low = half(
        is_lit(cathode, levels, 0),
        is_lit(cathode, levels, 1),
        is_lit(cathode, levels, 2),
        is_lit(cathode, levels, 3),
    );
    let high = half(
        is_lit(cathode, levels, 4),
        is_lit(cathode, levels, 5),
        is_lit(cathode, levels, 6),
        is_lit(cathode, levels, 7),
    );
    low + 16 * high
}

impl Behaviour for Seven {
    ghost use Rattle.parts_display.specs.Seven.{SevenState, seven, seven_laws};

    ghost Own = { SevenState };

    ghost reaction = { seven };

    ghost own = { λ a. a };

    fn pins(&self) -> u8 {
        11
    }

    fn contacts(&self) -> u8 {
        0
    }

    fn drive(&self, _pin: u8) -> Drive {
        Drive::Z
    }

    fn contact(&self, _i: u8) -> bool {
        false
    }

    fn react(&mut self, _before: &[Level], now: &[Level], _input: Option<u16>) -> bool {
        self.segments = lit_segments(self.cathode, now);
        false
    }

    ghost laws = { seven_laws };
}
