//! A frame that comes in: a start bit, 8 data bits and a stop bit.
ghost use Rattle.std.specs.Prelude.{◌≡◌, ◌+◌, ◌-◌, ◌<◌, ◌≤◌, ◌==◌, ◌&&◌, not};
ghost use Rattle.avr_unit.specs.Bits.{with_bit};
ghost use Rattle.slave_serial.specs.Reception.{next_bit, sampled, received, taken_in, next_sample, IsBit, Receives};

use avr_unit::with_bit;
use sim_base::MOST_CYCLES;
use slave_request::EngineRequest;

/// Which bit is sampled next, in which cycle, and the byte so far.
#[derive(Clone, Copy)]
pub struct Reception {
    pub place: u8,
    pub sample: u64,
    pub byte: u8,
}

impl Reception {
    // The next sample, from the cycle of this one.
    fn next_bit(self, bit: u32, cycle: u64) -> Reception
        requires bit { IsBit bit }
        requires cycle { cycle < MOST_CYCLES }
        requires place { self.place < 9 }
        ensures value { result ≡ next_bit self bit cycle }
        ensures ahead { cycle + 1 ≤ result.sample }
    {
        Reception {
            place: self.place + 1,
            sample: cycle + u64::from(bit),
            ..self
        }
    }

    fn sampled(self, bit: u32, cycle: u64, high: bool) -> Option<Reception>
        requires bit { IsBit bit }
        requires cycle { cycle < MOST_CYCLES }
        ensures value { result ≡ sampled self bit cycle high }
        ensures stands { Receives result (cycle + 1) }
    {
        if self.place == 0 {
            if high {
                None
            } else {
                Some(self.next_bit(bit, cycle))
            }
        } else if self.place < 9 {
            Some(Reception {
                byte: with_bit(self.byte, self.place - 1, high),
                ..self.next_bit(bit, cycle)
            })
        } else {
            None
        }
    }
}

/// One cycle, from what RX read in the cycle before and reads in this one.
pub(crate) fn received(
    reception: Option<Reception>,
    bit: u32,
    cycle: u64,
    before: bool,
    now: bool,
) -> Option<Reception>
    requires bit { IsBit bit }
    requires cycle { cycle < MOST_CYCLES }
    ensures value { result ≡ received reception bit cycle before now }
    ensures stands { Receives reception cycle → Receives result (cycle + 1) }
{
    match reception {
        Some(reception) => {
            if reception.sample == cycle {
                reception.sampled(bit, cycle, now)
            } else {
                Some(reception)
            }
        }
        None => {
            if before && !now {
                Some(Reception {
                    place: 0,
                    sample: cycle + u64::from(bit / 2),
                    byte: 0,
                })
            } else {
                None
            }
        }
    }
}

/// The byte whose stop bit is sampled in a cycle.
pub(crate) fn taken_in(reception: Option<Reception>, cycle: u64, now: bool) -> Option<EngineRequest>
    ensures { result ≡ taken_in reception cycle now }
{
    match reception {
        Some(reception) if reception.sample == cycle && (reception.place == 9 && now) => {
            Some(EngineRequest::Received(reception.byte))
        }
        _ => None,
    }
}

/// The cycle of the next sample.
pub(crate) fn next_sample(reception: Option<Reception>) -> Option<u64>
    ensures { result ≡ next_sample reception }
{
    match reception {
        Some(reception) => Some(reception.sample),
        None => None,
    }
}
