//! A slave at an address.
ghost use Rattle.std.specs.Prelude.{◌≡◌, ◌+◌, ◌-◌, ◌<◌, ◌≤◌, ◌*◌, ◌%◌, ◌==◌, None, false};
ghost use Rattle.std.specs.Option.{option_to_list};
ghost use Rattle.slave_i2c.specs.declared.slave.Phase.TheVariants as phases;
ghost use Rattle.slave_i2c.specs.I2c.{i2c_step, new_slave, with_bit_in, addressed, byte_in, bit_in, bit_out, off, with_byte, with_answer, IsPlace, disconnects, asks_in, asks_out};

use crate::lines::Lines;
use avr_unit::has_bit;
use slave_request::EngineRequest;

/// Where a slave is in the traffic on the bus.
#[derive(Clone, Copy)]
pub enum Phase {
    /// It waits for a START.
    Idle,
    /// The bits of an address come in: how many did, and what they are.
    Address(u8, u8),
    /// The bits of a byte that the master writes come in.
    Data(u8, u8),
    /// It asks whether it is there; the flag tells that the master reads.
    Connecting(bool),
    /// It asks whether a byte is taken.
    Judging,
    /// The answer bit is to be driven Low at the next fall of SCL.
    Accepting(bool),
    /// The answer bit is Low.
    Accepted(bool),
    /// It asks for a byte to send.
    Reading,
    /// A byte and which of its bits is on the line.
    Sending(u8, u8),
    /// The master's answer bit is to come.
    Ending,
    /// The master wants a further byte.
    Wanted,
}

/// A slave: its address, whether it is connected, whether it holds SDA Low, and its phase.
#[derive(Clone, Copy)]
pub struct Slave {
    pub address: u8,
    pub connected: bool,
    pub low: bool,
    pub phase: Phase,
}

// A byte that comes in from the highest bit, with a further bit.
fn with_bit_in(byte: u8, high: bool) -> u8
    ensures { result ≡ with_bit_in byte high }
{
    byte % 128 * 2 + u8::from(high)
}

impl Slave {
    /// One at an address below 128, which waits for a START.
    pub fn new(address: u8) -> Slave
        ensures { result ≡ new_slave address }
    {
        Slave {
            address,
            connected: false,
            low: false,
            phase: Phase::Idle,
        }
    }

    /// One cycle, from what the lines read in the cycle before and read in this one: what it asks for.
    pub fn step(&mut self, before: Lines, now: Lines) -> Option<EngineRequest>
        requires place { IsPlace self.old.phase }
        ensures asks { option_to_list result ≡ (i2c_step self.old before now).1 }
        ensures state { self.new ≡ (i2c_step self.old before now).0 }
        ensures place { IsPlace self.new.phase }
    {
        if now.is_start(before) {
            self.leave(Phase::Address(0, 0))
        } else if now.is_stop(before) {
            self.leave(Phase::Idle)
        } else if now.rises(before) {
            self.take(now.sda)
        } else if now.falls(before) {
            self.put()
        } else {
            None
        }
    }

    // A START or a STOP.
    fn leave(&mut self, phase: Phase) -> Option<EngineRequest>
        ensures asks { option_to_list result ≡ disconnects self.old.connected }
        ensures state { self.new ≡ off self.old phase }
    {
        let connected = self.connected;
        self.connected = false;
        self.low = false;
        self.phase = phase;
        if connected {
            Some(EngineRequest::Disconnect)
        } else {
            None
        }
    }

    // A rise of SCL.
    fn take(&mut self, sda: bool) -> Option<EngineRequest>
        requires place { IsPlace self.old.phase }
        ensures asks { option_to_list result ≡ asks_in self.old self.old.phase sda }
        ensures state { self.new ≡ record self.old { phase = bit_in self.old.address self.old.phase sda } }
        ensures place { IsPlace self.new.phase }
    {
        match self.phase {
            Phase::Address(place, byte) => {
                let byte = with_bit_in(byte, sda);
                if place < 7 {
                    self.phase = Phase::Address(place + 1, byte);
                    None
                } else {
                    self.meet(byte)
                }
            }
            Phase::Data(place, byte) => {
                let byte = with_bit_in(byte, sda);
                if place < 7 {
                    self.phase = Phase::Data(place + 1, byte);
                    None
                } else {
                    self.phase = Phase::Judging;
                    Some(EngineRequest::Write(byte))
                }
            }
            Phase::Ending => {
                self.phase = if sda { Phase::Idle } else { Phase::Wanted };
                None
            }
            _ => None,
        }
    }

    // The eighth bit behind a START.
    fn meet(&mut self, byte: u8) -> Option<EngineRequest>
        ensures asks { option_to_list result ≡ addressed self.old.address byte }
        ensures state { self.new ≡ record self.old { phase = byte_in self.old.address byte } }
        ensures place { IsPlace self.new.phase }
    {
        if byte / 2 == self.address {
            let read = byte % 2 == 1;
            self.phase = Phase::Connecting(read);
            Some(EngineRequest::Connect(self.address, read))
        } else {
            self.phase = Phase::Idle;
            None
        }
    }

    // A fall of SCL.
    fn put(&mut self) -> Option<EngineRequest>
        requires place { IsPlace self.old.phase }
        ensures asks { option_to_list result ≡ asks_out self.old.phase }
        ensures state { self.new ≡ bit_out self.old self.old.phase }
        ensures place { IsPlace self.new.phase }
    {
        match self.phase {
            Phase::Accepting(read) => {
                self.low = true;
                self.phase = Phase::Accepted(read);
                None
            }
            Phase::Accepted(false) => {
                self.low = false;
                self.phase = Phase::Data(0, 0);
                None
            }
            Phase::Accepted(true) | Phase::Wanted => {
                self.low = false;
                self.phase = Phase::Reading;
                Some(EngineRequest::Read)
            }
            Phase::Sending(byte, place) => {
                self.send(byte, place);
                None
            }
            _ => None,
        }
    }

    // A bit of a byte was on the line.
    fn send(&mut self, byte: u8, place: u8)
        requires place { place ≤ 7 }
        requires here { self.old.phase ≡ phases.Sending byte place }
        ensures state { self.new ≡ bit_out self.old (phases.Sending byte place) }
        ensures place { IsPlace self.new.phase }
    {
        if place < 7 {
            self.low = !has_bit(byte, 6 - place);
            self.phase = Phase::Sending(byte, place + 1);
        } else {
            self.low = false;
            self.phase = Phase::Ending;
        }
    }

    /// Hands in the byte for a Read: its first bit is on the line.
    pub fn byte(&mut self, value: u8)
        requires place { IsPlace self.old.phase }
        ensures state { self.new ≡ with_byte self.old self.old.phase value }
        ensures place { IsPlace self.new.phase }
    {
        if let Phase::Reading = self.phase {
            self.low = value < 128;
            self.phase = Phase::Sending(value, 0);
        }
    }

    /// Hands in the answer to a Connect or a Write: 0 is a refusal.
    pub fn answer(&mut self, value: u32)
        requires place { IsPlace self.old.phase }
        ensures state { self.new ≡ with_answer self.old self.old.phase value }
        ensures place { IsPlace self.new.phase }
    {
        match self.phase {
            Phase::Connecting(read) => {
                self.connected = value != 0;
                self.phase = if value == 0 {
                    Phase::Idle
                } else {
                    Phase::Accepting(read)
                };
            }
            Phase::Judging => {
                self.phase = if value == 0 {
                    Phase::Idle
                } else {
                    Phase::Accepting(false)
                };
            }
            _ => {}
        }
    }
}
