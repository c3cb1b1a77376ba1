//! The text display LCD 1602.
ghost use Rattle.std.specs.Prelude.{◌≡◌, ◌<◌, ◌+◌, length};
ghost use Rattle.parts_display.specs.Screen.{line};
ghost use Rattle.parts_display.specs.Lcd.{full_lcd, i2c_lcd, half_at, data_of, lines_at, parallel, sda};

use crate::expander::Expander;
use crate::halves::half;
use crate::screen::Screen;
use part_catalog::Settings;
use part_reactive::{Behaviour, falls, reads_at};
use sim_base::{Drive, Level};
use slave_i2c::Lines;
use std::marker::Model;

// the full pins that it reads: D1 to D3 stand behind D0, D5 to D7 behind D4
const RS: usize = 3;

const RW: usize = 4;

const E: usize = 5;

const D0: usize = 6;

const D4: usize = 10;

// those of I2C
const SDA: u8 = 2;

const SCL: u8 = 3;

/// How it is wired: by its full pins in parallel, or by I2C through an expander.
#[derive(Clone, Copy)]
pub enum Bus {
    Parallel,
    I2c(Expander),
}

/// A text display of two lines of 16 characters.
#[derive(Drop)]
pub struct Lcd {
    screen: Screen,
    bus: Bus,
}

impl Model for Lcd {
    ghost use Rattle.parts_display.specs.Lcd.{LcdState, IsBus};

    ghost Value = { LcdState };

    ghost view = { λ a. record { screen = a.screen; bus = a.bus } };

    ghost invariant = { λ a. record { bus : IsBus a.bus } };
}

impl Lcd {
    /// One with its full pins, which is off.
    pub fn full() -> Self
        ensures { result ≡ full_lcd }
    {
        Lcd {
            screen: Screen::blank(),
            bus: Bus::Parallel,
        }
    }

    /// One with the pins of I2C, which is off; `number` of the settings is its address.
    pub fn i2c(settings: Settings) -> Self
        ensures { result ≡ i2c_lcd settings }
    {
        Lcd {
            screen: Screen::blank(),
            bus: Bus::I2c(Expander::new((settings.number % 128) as u8)),
        }
    }

    /// The 16 characters of a line, 0 or 1: spaces while it is off, and `?` for bytes outside 0x20 to 0x7E.
    pub fn line(&self, row: u8) -> [u8; 16]
        requires { row < 2 }
        ensures { result ≡ line self.now.screen row }
    {
        self.screen.line(row)
    }
}

// Four data lines.
fn half_at(levels: &[Level], first: usize) -> u8
    requires { first + 3 < length levels.now }
    ensures value { result ≡ half_at levels.now first }
    ensures short { result < 16 }
{
    half(
        reads_at(levels, first),
        reads_at(levels, first + 1),
        reads_at(levels, first + 2),
        reads_at(levels, first + 3),
    )
}

fn data_of(levels: &[Level]) -> u8
    requires { length levels.now ≡ 16 }
    ensures { result ≡ data_of levels.now }
{
    half_at(levels, D0) + 16 * half_at(levels, D4)
}

// A step on the full pins.
fn parallel(screen: &mut Screen, before: &[Level], now: &[Level])
    requires before { length before.now ≡ 16 }
    requires now { length now.now ≡ 16 }
    ensures { screen.new ≡ parallel screen.old before.now now.now }
{
    if falls(before, now, E) && !reads_at(now, RW) {
        screen.take(reads_at(now, RS), data_of(now));
    }
}

fn lines_at(levels: &[Level]) -> Lines
    requires { length levels.now ≡ 4 }
    ensures { result ≡ lines_at levels.now }
{
    Lines {
        scl: reads_at(levels, usize::from(SCL)),
        sda: reads_at(levels, usize::from(SDA)),
    }
}

fn sda(low: bool) -> Drive
    ensures { result ≡ sda low }
{
    if low { Drive::Low } else { Drive::Z }
}

impl Behaviour for Lcd {
    ghost use Rattle.parts_display.specs.Lcd.{LcdState, lcd, lcd_laws};

    ghost Own = { LcdState };

    ghost reaction = { lcd };

    ghost own = { λ a. a };

    fn pins(&self) -> u8 {
        match self.bus {
            Bus::Parallel => 16,
            Bus::I2c(_) => 4,
        }
    }

    fn contacts(&self) -> u8 {
        0
    }

    fn drive(&self, pin: u8) -> Drive {
        match self.bus {
            Bus::I2c(expander) if pin == SDA => sda(expander.slave.low),
            _ => Drive::Z,
        }
    }

    fn contact(&self, _i: u8) -> bool {
        false
    }

    fn react(&mut self, before: &[Level], now: &[Level], _input: Option<u16>) -> bool {
        match self.bus {
            Bus::Parallel => {
                parallel(&mut self.screen, before, now);
                false
            }
            Bus::I2c(old) => {
                let mut expander = old;
                expander.step(&mut self.screen, lines_at(before), lines_at(now));
                self.bus = Bus::I2c(expander);
                expander.slave.low != old.slave.low
            }
        }
    }

    ghost laws = { lcd_laws };
}
