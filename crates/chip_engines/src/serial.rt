//! The machines of the three kinds of engine as one.
ghost use Rattle.std.specs.Prelude.{◌≡◌, ◌<◌, ◌++◌, ◌≤◌, false, true};
ghost use Rattle.std.specs.Option.{option_to_list};
ghost use Rattle.slave_serial.specs.Uart.{IsUart};
ghost use Rattle.slave_serial.specs.Spi.{IsTransaction};
ghost use Rattle.slave_i2c.specs.I2c.{IsPlace};
ghost use Rattle.chip_engines.specs.declared.serial.Serial.TheVariants as serials;
ghost use Rattle.chip_engines.specs.Serial.{wires_of, lines_of, serial_step, serial_output, serial_busy, bit_of, uart_of, spi_of, i2c_of, with_byte, with_answer, IsSerial};

use sim_base::{Drive, MOST_CYCLES};
use slave_i2c::{Lines, Slave};
use slave_request::EngineRequest;
use slave_serial::{Spi, Uart, Wires};

/// An engine without its pins.
#[derive(Clone, Copy)]
pub enum Serial {
    Uart(Uart),
    Spi(Spi),
    I2c(Slave),
}

/// What an engine's pins read: RX; SCK and MOSI; SCL and SDA.
#[derive(Clone, Copy)]
pub struct Inputs {
    pub first: bool,
    pub second: bool,
}

fn wires_of(inputs: Inputs) -> Wires
    ensures { result ≡ wires_of inputs }
{
    Wires {
        sck: inputs.first,
        mosi: inputs.second,
    }
}

fn lines_of(inputs: Inputs) -> Lines
    ensures { result ≡ lines_of inputs }
{
    Lines {
        scl: inputs.first,
        sda: inputs.second,
    }
}

// How many cycles a bit has.
fn bit_of(baud: u32) -> u32
    ensures value { result ≡ bit_of baud }
    ensures least { 2 ≤ result }
    ensures most { result ≤ 16000000 }
{
    (16_000_000 / baud.max(1)).max(2)
}

impl Serial {
    /// An idle UART at a baud rate; 0 counts as 1.
    pub fn uart(baud: u32) -> Serial
        ensures value { result ≡ uart_of baud }
        ensures sound { IsSerial result }
    {
        Serial::Uart(Uart::new(bit_of(baud)))
    }

    /// An idle SPI slave in a mode, which counts mod 4.
    pub fn spi(mode: u32) -> Serial
        ensures value { result ≡ spi_of mode }
        ensures sound { IsSerial result }
    {
        Serial::Spi(Spi::new((mode % 4) as u8))
    }

    /// An I2C slave at an address, which counts mod 128.
    pub fn i2c(address: u32) -> Serial
        ensures value { result ≡ i2c_of address }
        ensures sound { IsSerial result }
    {
        Serial::I2c(Slave::new((address % 128) as u8))
    }

    /// One cycle, from what its pins read in the cycle before and read in this one: what it asks for, in this order.
    /// An SPI slave's transaction that waits for its first turn has it in this cycle.
    pub fn step(
        &mut self,
        cycle: u64,
        before: Inputs,
        now: Inputs,
    ) -> (Option<EngineRequest>, Option<EngineRequest>)
        requires cycle { cycle < MOST_CYCLES }
        requires sound { IsSerial self.old }
        ensures serial { self.new ≡ (serial_step self.old cycle before now).0 }
        ensures asks { option_to_list result.0 ++ option_to_list result.1 ≡ (serial_step self.old cycle before now).1 }
        ensures sound { IsSerial self.new }
    {
        match self {
            Serial::Uart(uart) => uart.step(cycle, before.first, now.first),
            Serial::Spi(spi) => {
                spi.open_in(cycle);
                spi.step(cycle, wires_of(before), wires_of(now))
            }
            Serial::I2c(slave) => (None, slave.step(lines_of(before), lines_of(now))),
        }
    }

    /// What it drives its out pin to in the next cycle; `early` tells that a UART was told to send before cycle 0.
    pub fn output(&self, early: bool) -> Option<Drive>
        ensures { result ≡ serial_output self.now early }
    {
        match self {
            Serial::Uart(uart) => Some(if early || uart.next_line() {
                Drive::High
            } else {
                Drive::Low
            }),
            Serial::Spi(spi) => match spi.miso {
                Some(true) => Some(Drive::High),
                Some(false) => Some(Drive::Low),
                None => None,
            },
            Serial::I2c(slave) => { if slave.low { Some(Drive::Low) } else { None } }
        }
    }

    /// Whether it still sends or exchanges; `waits` tells that the end of sending is to be told in this turn.
    pub fn is_busy(self, waits: bool) -> bool
        ensures { result ≡ serial_busy self waits }
    {
        match self {
            Serial::Uart(uart) => uart.is_sending() || waits,
            Serial::Spi(spi) => spi.is_open(),
            Serial::I2c(_) => false,
        }
    }

    /// With the byte for a Fetch or a Read.
    pub fn with_byte(self, byte: u8) -> Serial
        requires sound { IsSerial self }
        ensures value { result ≡ with_byte self byte }
        ensures sound { IsSerial result }
    {
        match self {
            Serial::Uart(uart) => give_uart(uart, byte),
            Serial::Spi(spi) => give_spi(spi, byte),
            Serial::I2c(slave) => give_i2c(slave, byte),
        }
    }

    /// With the answer to a Connect or a Write; 0 is a refusal.
    pub fn with_answer(self, answer: u32) -> Serial
        requires sound { IsSerial self }
        ensures value { result ≡ with_answer self answer }
        ensures sound { IsSerial result }
    {
        match self {
            Serial::I2c(slave) => answer_i2c(slave, answer),
            Serial::Uart(_) | Serial::Spi(_) => self,
        }
    }
}

fn give_uart(mut uart: Uart, byte: u8) -> Serial
    requires sound { IsUart uart }
    ensures value { result ≡ with_byte (serials.Uart uart) byte }
    ensures sound { IsSerial result }
{
    uart.give(byte);
    Serial::Uart(uart)
}

fn give_spi(mut spi: Spi, byte: u8) -> Serial
    requires sound { IsTransaction spi.transaction }
    ensures value { result ≡ with_byte (serials.Spi spi) byte }
    ensures sound { IsSerial result }
{
    spi.give(byte);
    Serial::Spi(spi)
}

fn give_i2c(mut slave: Slave, byte: u8) -> Serial
    requires sound { IsPlace slave.phase }
    ensures value { result ≡ with_byte (serials.I2c slave) byte }
    ensures sound { IsSerial result }
{
    slave.byte(byte);
    Serial::I2c(slave)
}

fn answer_i2c(mut slave: Slave, answer: u32) -> Serial
    requires sound { IsPlace slave.phase }
    ensures value { result ≡ with_answer (serials.I2c slave) answer }
    ensures sound { IsSerial result }
{
    slave.answer(answer);
    Serial::I2c(slave)
}
