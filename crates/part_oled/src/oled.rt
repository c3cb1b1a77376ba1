//! The display on its pins.
ghost use Rattle.std.specs.Prelude.{◌≡◌, ◌<◌, length, if◌then◌else◌};
ghost use Rattle.std.specs.Option.{option_to_list};
ghost use Rattle.slave_i2c.specs.I2c.{IsPlace};
ghost use Rattle.part_oled.specs.Picture.{cell, page_cells};
ghost use Rattle.part_oled.specs.Oled.{new_oled, lines_at, heard, oled_step};

use crate::picture::Picture;
use crate::stream::Stream;
use part_catalog::Settings;
use part_reactive::{Behaviour, reads_at};
use sim_base::{Drive, Level};
use slave_i2c::{Lines, Slave};
use slave_request::EngineRequest;
use std::marker::Model;

// its pins; GND and VCC are not looked at
const SCL: usize = 2;

const SDA: usize = 3;

/// An OLED of 128 by 64 dots, in 8 pages of 128 columns of 8 dots.
#[derive(Drop)]
pub struct Oled {
    picture: Picture,
    stream: Stream,
    slave: Slave,
}

impl Model for Oled {
    ghost use Rattle.slave_i2c.specs.I2c.{IsPlace};
    ghost use Rattle.part_oled.specs.Oled.{OledState};

    ghost Value = { OledState };

    ghost view = { λ a. record { picture = a.picture; stream = a.stream; slave = a.slave } };

    ghost invariant = { λ a. record { place : IsPlace a.slave.phase } };
}

fn lines_at(levels: &[Level]) -> Lines
    requires { length levels.now ≡ 4 }
    ensures { result ≡ lines_at levels.now }
{
    Lines {
        scl: reads_at(levels, SCL),
        sda: reads_at(levels, SDA),
    }
}

impl Oled {
    /// One that is off and dark; `number` of the settings is its address.
    pub fn new(settings: Settings) -> Oled
        ensures { result ≡ new_oled settings }
    {
        Oled {
            picture: Picture::dark(),
            stream: Stream::Control,
            slave: Slave::new((settings.number % 128) as u8),
        }
    }

    /// Whether the display is on.
    pub fn shown(&self) -> bool
        ensures { result ≡ self.now.picture.on }
    {
        self.picture.on()
    }

    /// The eight dots of a page, 0 to 7, and a column, 0 to 127, as they are shown: the lowest bit is the upper dot.
    pub fn cell(&self, page: u8, column: u8) -> u8
        requires page { page < 8 }
        requires column { column < 128 }
        ensures { result ≡ cell self.now.picture page column }
    {
        self.picture.cell(page, column)
    }

    /// The 128 columns of a page, 0 to 7, as they are shown.
    pub fn page(&self, page: u8) -> [u8; 128]
        requires { page < 8 }
        ensures { result ≡ page_cells self.now.picture page }
    {
        self.picture.page(page)
    }

    // What the slave asks is answered.
    fn hear(&mut self, request: Option<EngineRequest>)
        ensures { self.new ≡ heard self.old (option_to_list request) }
    {
        match request {
            Some(EngineRequest::Connect(_, read)) => {
                self.stream = Stream::Control;
                self.slave.answer(u32::from(!read));
            }
            Some(EngineRequest::Write(byte)) => {
                self.stream.take(&mut self.picture, byte);
                self.slave.answer(1);
            }
            _ => {}
        }
    }

    fn step(&mut self, before: Lines, now: Lines)
        ensures { self.new ≡ oled_step self.old before now }
    {
        let request = self.slave.step(before, now);
        self.hear(request);
    }
}

impl Behaviour for Oled {
    ghost use Rattle.part_oled.specs.Oled.{OledState, oled, oled_laws};

    ghost Own = { OledState };

    ghost reaction = { oled };

    ghost own = { λ a. a };

    fn pins(&self) -> u8 {
        4
    }

    fn contacts(&self) -> u8 {
        0
    }

    fn drive(&self, pin: u8) -> Drive {
        if usize::from(pin) == SDA && self.slave.low {
            Drive::Low
        } else {
            Drive::Z
        }
    }

    fn contact(&self, _i: u8) -> bool {
        false
    }

    fn react(&mut self, before: &[Level], now: &[Level], _input: Option<u16>) -> bool {
        let low = self.slave.low;
        self.step(lines_at(before), lines_at(now));
        self.slave.low != low
    }

    ghost laws = { oled_laws };
}
