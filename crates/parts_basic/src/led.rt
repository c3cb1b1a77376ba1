//! The LED.
ghost use Rattle.std.specs.Prelude.{◌≡◌};
ghost use Rattle.parts_basic.specs.Led.{is_lit, unlit};

use part_reactive::Behaviour;
use sim_base::{Drive, Level, reads_one};
use std::marker::Model;

/// An LED, which is lit where A reads 1 and C is Low.
#[derive(Drop)]
pub struct Led {
    count: u64,
}

impl Model for Led {
    ghost use Rattle.parts_basic.specs.Led.{LedState};

    ghost Value = { LedState };

    ghost view = { λ a. record { count = a.count } };
}

fn is_lit(levels: &[Level]) -> bool
    ensures { result ≡ is_lit levels.now }
{
    match levels {
        [anode, cathode, ..] => reads_one(*anode) && *cathode == Level::Low,
        _ => false,
    }
}

impl Led {
    /// An LED that was never lit.
    pub fn new() -> Self
        ensures { result ≡ unlit }
    {
        Led { count: 0 }
    }

    /// In how many cycles it became lit.
    pub fn count(&self) -> u64
        ensures { result ≡ self.now.count }
    {
        self.count
    }

    /// Whether it is lit on the levels of its pins, A and C.
    pub fn lit(levels: &[Level]) -> bool
        ensures { result ≡ is_lit levels.now }
    {
        is_lit(levels)
    }
}

impl Behaviour for Led {
    ghost use Rattle.parts_basic.specs.Led.{LedState, led, led_laws};

    ghost Own = { LedState };

    ghost reaction = { led };

    ghost own = { λ a. a };

    fn pins(&self) -> u8 {
        2
    }

    fn contacts(&self) -> u8 {
        0
    }

    fn drive(&self, _pin: u8) -> Drive {
        Drive::Z
    }

    fn contact(&self, _i: u8) -> bool {
        false
    }

    fn react(&mut self, before: &[Level], now: &[Level], _input: Option<u16>) -> bool {
        if is_lit(now) && !is_lit(before) {
            self.count += 1;
        }
        false
    }

    ghost laws = { led_laws };
}
