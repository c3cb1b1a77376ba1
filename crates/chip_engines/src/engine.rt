//! An engine behind its pins.
ghost use Rattle.std.specs.Prelude.{◌≡◌, ◌<◌, ◌≤◌, ◌++◌, true, false};
ghost use Rattle.std.specs.Option.{option_to_list};
ghost use Rattle.chip_engines.specs.Serial.{IsSerial, serial_output};
ghost use Rattle.chip_engines.specs.Engine.{new_engine, pin_reads, inputs_of, inputs_before, engine_turned, is_busy, sends, exchanges, stops, gets_byte, gets_answer, drives_at, waits_sent_in, IsEngine};

use crate::serial::{Inputs, Serial};
use sim_base::{Drive, Level, MOST_CYCLES, reads_one};
use slave_request::EngineRequest;

/// The positions of its pins: RX, none, TX; SCK, MOSI, MISO; SCL, SDA, SDA. None is a pin of -1.
#[derive(Clone, Copy)]
pub struct Pins {
    pub first: Option<u32>,
    pub second: Option<u32>,
    pub out: Option<u32>,
}

/// Where in the table its callbacks stand; 0 is none.
#[derive(Clone, Copy)]
pub struct Callbacks {
    pub received: u32,
    pub sent: u32,
    pub done: u32,
    pub connect: u32,
    pub read: u32,
    pub write: u32,
    pub disconnect: u32,
}

/// An engine: its machine, its pins, whether it was told to send before cycle 0, what it asks for in its turn behind the request
/// that is served, and what the chip gave with it: its data, its callbacks, and the address of the bytes.
#[derive(Clone, Copy)]
pub struct Engine {
    pub serial: Serial,
    pub pins: Pins,
    pub early: bool,
    pub later: Option<EngineRequest>,
    pub user: u32,
    pub calls: Callbacks,
    pub buffer: u32,
}

/// What a turn leaves to do: what the engine asks for, in this order, and whether it drives something else than before.
#[derive(Clone, Copy)]
pub struct Turn {
    pub first: Option<EngineRequest>,
    pub second: Option<EngineRequest>,
    pub moved: bool,
}

fn pin_reads(pin: Option<u32>, levels: &[Level]) -> bool
    ensures { result ≡ pin_reads pin levels.now }
{
    match pin {
        Some(i) => match levels.get(i as usize) {
            Some(level) => reads_one(*level),
            None => false,
        },
        None => true,
    }
}

impl Pins {
    fn inputs(&self, levels: &[Level]) -> Inputs
        ensures { result ≡ inputs_of self.now levels.now }
    {
        Inputs {
            first: pin_reads(self.first, levels),
            second: pin_reads(self.second, levels),
        }
    }

    // What they read in the cycle before this one.
    fn inputs_before(&self, cycle: u64, levels: &[Level]) -> Inputs
        ensures { result ≡ inputs_before self.now cycle levels.now }
    {
        if cycle == 0 {
            Inputs {
                first: false,
                second: false,
            }
        } else {
            self.inputs(levels)
        }
    }
}

fn waits_sent(later: Option<EngineRequest>) -> bool
    ensures { result ≡ waits_sent_in later }
{
    match later {
        Some(EngineRequest::Sent) => true,
        _ => false,
    }
}

fn is_same(a: Option<Drive>, b: Option<Drive>) -> bool
    ensures { result ≡ true → a ≡ b }
{
    match (a, b) {
        (None, None) => true,
        (Some(Drive::Low), Some(Drive::Low)) => true,
        (Some(Drive::High), Some(Drive::High)) => true,
        _ => false,
    }
}

impl Engine {
    /// An idle one.
    pub fn new(serial: Serial, pins: Pins, user: u32, calls: Callbacks) -> Engine
        ensures { result ≡ new_engine serial pins user calls }
    {
        Engine {
            serial,
            pins,
            early: false,
            later: None,
            user,
            calls,
            buffer: 0,
        }
    }

    /// Its turn of a cycle, on the levels of the chip's pins in the cycle before and in this one.
    pub fn turn(&mut self, cycle: u64, before: &[Level], now: &[Level]) -> Turn
        requires cycle { cycle < MOST_CYCLES }
        requires sound { IsEngine self.old }
        ensures engine { self.new ≡ (engine_turned self.old cycle before.now now.now).0 }
        ensures asks { option_to_list result.first ++ option_to_list result.second ≡ (engine_turned self.old cycle before.now now.now).1 }
        ensures drives { result.moved ≡ false → serial_output self.new.serial self.new.early ≡ serial_output self.old.serial self.old.early }
        ensures sound { IsEngine self.new }
    {
        let output = self.output();
        let before = self.pins.inputs_before(cycle, before);
        let now = self.pins.inputs(now);
        self.early = self.early && cycle != 0;
        let (first, second) = self.serial.step(cycle, before, now);
        Turn {
            first,
            second,
            moved: !is_same(output, self.output()),
        }
    }

    // What it drives its pin to in the next cycle, where it has one.
    fn output(&self) -> Option<Drive>
        ensures { result ≡ serial_output self.now.serial self.now.early }
    {
        self.serial.output(self.early)
    }

    /// What it drives a pin to in the next cycle.
    pub fn drives(&self, pin: u32) -> Option<Drive>
        ensures { result ≡ drives_at pin self.now }
    {
        match self.pins.out {
            Some(out) => {
                if out == pin {
                    self.serial.output(self.early)
                } else {
                    None
                }
            }
            None => None,
        }
    }

    /// Whether it is still to tell the end of its bytes.
    pub fn is_busy(self) -> bool
        ensures { result ≡ is_busy self }
    {
        self.serial.is_busy(waits_sent(self.later))
    }

    /// A UART that is told to send `count` bytes from an address, in the cycle behind this one; `early` tells that this is
    /// before cycle 0.
    pub fn sends(self, cycle: u64, early: bool, buffer: u32, count: u32) -> Engine
        requires cycle { cycle ≤ MOST_CYCLES }
        requires sound { IsEngine self }
        ensures value { result ≡ sends self cycle early buffer count }
        ensures sound { IsEngine result }
    {
        match self.serial {
            Serial::Uart(uart) => {
                let mut uart = uart;
                uart.begin(cycle, count);
                Engine {
                    serial: Serial::Uart(uart),
                    early,
                    buffer,
                    ..self
                }
            }
            Serial::Spi(_) | Serial::I2c(_) => self,
        }
    }

    /// An SPI slave that is told to exchange `count` bytes at an address, from its next turn on.
    pub fn exchanges(self, cycle: u64, buffer: u32, count: u32) -> Engine
        requires count { 0 < count }
        requires sound { IsEngine self }
        ensures value { result ≡ exchanges self cycle buffer count }
        ensures sound { IsEngine result }
    {
        match self.serial {
            Serial::Spi(spi) => {
                let mut spi = spi;
                spi.begin(count, cycle);
                Engine {
                    serial: Serial::Spi(spi),
                    buffer,
                    ..self
                }
            }
            Serial::Uart(_) | Serial::I2c(_) => self,
        }
    }

    /// An SPI slave that is told to stop, which it tells in the cycle behind this one.
    pub fn stops(self, cycle: u64) -> Engine
        requires cycle { cycle ≤ MOST_CYCLES }
        requires sound { IsEngine self }
        ensures value { result ≡ stops self cycle }
        ensures sound { IsEngine result }
    {
        match self.serial {
            Serial::Spi(spi) => {
                let mut spi = spi;
                spi.stop(cycle + 1);
                Engine {
                    serial: Serial::Spi(spi),
                    ..self
                }
            }
            Serial::Uart(_) | Serial::I2c(_) => self,
        }
    }

    /// With the byte for a Fetch or a Read.
    pub fn with_byte(self, byte: u8) -> Engine
        requires sound { IsEngine self }
        ensures value { result ≡ gets_byte self byte }
        ensures sound { IsEngine result }
    {
        Engine {
            serial: self.serial.with_byte(byte),
            ..self
        }
    }

    /// With the answer to a Connect or a Write; 0 is a refusal.
    pub fn with_answer(self, answer: u32) -> Engine
        requires sound { IsEngine self }
        ensures value { result ≡ gets_answer self answer }
        ensures sound { IsEngine result }
    {
        Engine {
            serial: self.serial.with_answer(answer),
            ..self
        }
    }
}
