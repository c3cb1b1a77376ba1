//! The expander between the bus and a text display.
ghost use Rattle.std.specs.Prelude.{◌≡◌};
ghost use Rattle.std.specs.Option.{option_to_list};
ghost use Rattle.slave_i2c.specs.I2c.{IsPlace};
ghost use Rattle.parts_display.specs.Expander.{new_expander, ported, heard, expander_step};

use crate::screen::Screen;
use part_reactive::bit;
use slave_i2c::{Lines, Slave};
use slave_request::EngineRequest;

// the bits of its port; D4 to D7 of the display are at 4 to 7
const RS: u8 = 0;

const RW: u8 = 1;

const E: u8 = 2;

/// An expander: a slave on the bus, and the byte at its port.
#[derive(Clone, Copy)]
pub struct Expander {
    pub slave: Slave,
    pub port: u8,
}

// A byte at the port behind another one.
fn put(screen: &mut Screen, old: u8, new: u8)
    ensures { screen.new ≡ ported screen.old old new }
{
    if bit(E, old) && (!bit(E, new) && !bit(RW, new)) {
        screen.take(bit(RS, new), new / 16 * 16);
    }
}

impl Expander {
    /// One at an address below 128, with 0 at its port.
    pub(crate) fn new(address: u8) -> Expander
        ensures { result ≡ new_expander address }
    {
        Expander {
            slave: Slave::new(address),
            port: 0,
        }
    }

    /// One cycle, from what the lines read in the cycle before and read in this one.
    pub(crate) fn step(&mut self, screen: &mut Screen, before: Lines, now: Lines)
        requires place { IsPlace self.old.slave.phase }
        ensures state { (screen.new, self.new) ≡ expander_step screen.old self.old before now }
        ensures place { IsPlace self.new.slave.phase }
    {
        let request = self.slave.step(before, now);
        self.hear(screen, request);
    }

    // What the slave asks is answered.
    fn hear(&mut self, screen: &mut Screen, request: Option<EngineRequest>)
        requires place { IsPlace self.old.slave.phase }
        ensures state { (screen.new, self.new) ≡ heard screen.old self.old (option_to_list request) }
        ensures place { IsPlace self.new.slave.phase }
    {
        match request {
            Some(EngineRequest::Connect(..)) => self.slave.answer(1),
            Some(EngineRequest::Write(byte)) => {
                put(screen, self.port, byte);
                self.port = byte;
                self.slave.answer(1);
            }
            Some(EngineRequest::Read) => self.slave.byte(0xFF),
            _ => {}
        }
    }
}
