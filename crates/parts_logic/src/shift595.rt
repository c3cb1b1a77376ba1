//! The shift register 74HC595.
ghost use Rattle.std.specs.Prelude.{◌≡◌, length};
ghost use Rattle.parts_logic.specs.Shift595.{cleared, shifted, q};

use part_reactive::{Behaviour, bit, is_low, output, reads_at, rises};
use sim_base::{Drive, Level};
use std::marker::Model;

// its pins; then Q0 to Q7, Q7S, GND and VCC
const DS: usize = 0;

const SHCP: usize = 1;

const STCP: usize = 2;

const MR: usize = 3;

const OE: usize = 4;

const Q0: u8 = 5;

const Q7: u8 = 12;

const Q7S: u8 = 13;

/// A 74HC595: a shift register of eight stages, and the storage register behind it.
#[derive(Drop)]
pub struct Shift595 {
    stages: u8,
    storage: u8,
    off: bool,
}

impl Model for Shift595 {
    ghost use Rattle.parts_logic.specs.Shift595.{ShiftState};

    ghost Value = { ShiftState };

    ghost view = { λ a. record { stages = a.stages; storage = a.storage; off = a.off } };
}

impl Shift595 {
    /// One with all stages and the storage register 0.
    pub fn new() -> Self
        ensures { result ≡ cleared }
    {
        Shift595 {
            stages: 0,
            storage: 0,
            off: false,
        }
    }

    /// The shift register, stage 0 in bit 0, and the storage register, Q0 in bit 0.
    pub fn registers(&self) -> (u8, u8)
        ensures { result ≡ (self.now.stages, self.now.storage) }
    {
        (self.stages, self.storage)
    }
}

fn shifted(before: &[Level], now: &[Level], stages: u8) -> u8
    requires before { length before.now ≡ 16 }
    requires now { length now.now ≡ 16 }
    ensures { result ≡ shifted before.now now.now stages }
{
    if is_low(now, MR) {
        0
    } else if rises(before, now, SHCP) {
        stages % 128 * 2 + u8::from(reads_at(now, DS))
    } else {
        stages
    }
}

fn q(off: bool, high: bool) -> Drive
    ensures { result ≡ q off high }
{
    if off { Drive::Z } else { output(high) }
}

impl Behaviour for Shift595 {
    ghost use Rattle.parts_logic.specs.Shift595.{ShiftState, shift595, shift595_laws};

    ghost Own = { ShiftState };

    ghost reaction = { shift595 };

    ghost own = { λ a. a };

    fn pins(&self) -> u8 {
        16
    }

    fn contacts(&self) -> u8 {
        0
    }

    fn drive(&self, pin: u8) -> Drive {
        match pin {
            Q0..=Q7 => q(self.off, bit(pin - Q0, self.storage)),
            Q7S => output(bit(7, self.stages)),
            _ => Drive::Z,
        }
    }

    fn contact(&self, _i: u8) -> bool {
        false
    }

    fn react(&mut self, before: &[Level], now: &[Level], _input: Option<u16>) -> bool {
        let stages = shifted(before, now, self.stages);
        let storage = if rises(before, now, STCP) {
            self.stages
        } else {
            self.storage
        };
        let off = reads_at(now, OE);
        let changed = storage != self.storage
            || off != self.off
            || bit(7, stages) != bit(7, self.stages);
        self.storage = storage;
        self.stages = stages;
        self.off = off;
        changed
    }

    ghost laws = { shift595_laws };
}
