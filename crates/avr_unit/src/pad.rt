//! What the units ask of a pin.
ghost use Rattle.std.specs.Prelude.{◌≡◌, false, true};
ghost use Rattle.avr_unit.specs.Pad.{untouched, valued, joined, driven, drive_of};

use sim_base::Drive;

/// The signals of a pin's pad, under the data sheet's names: DDRx and PORTx give `ddr` and `port`, and an
/// alternate function overrides the direction (`ddoe`, `ddov`) or the value (`pvoe`, `pvov`).
/// Source: data sheet, "I/O-Ports", "Alternate Port Functions".
#[derive(Clone, Copy, Debug, PartialEq, Eq)]
pub struct Pad {
    pub ddr: bool,
    pub port: bool,
    pub ddoe: bool,
    pub ddov: bool,
    pub pvoe: bool,
    pub pvov: bool,
}

impl Pad {
    /// What a unit asks of a pin that it leaves alone.
    #[inline]
    pub fn untouched() -> Pad
        ensures { result ≡ untouched }
    {
        Pad {
            ddr: false,
            port: false,
            ddoe: false,
            ddov: false,
            pvoe: false,
            pvov: false,
        }
    }

    /// The value of an output in place of PORTx: the pin is still an output by DDRx alone.
    #[inline]
    pub fn valued(high: bool) -> Pad
        ensures { result ≡ valued high }
    {
        Pad {
            ddr: false,
            port: false,
            ddoe: false,
            ddov: false,
            pvoe: true,
            pvov: high,
        }
    }

    /// What two units ask together: a value of 1 wins where both give one.
    #[inline]
    pub fn joined(self, other: Pad) -> Pad
        ensures { result ≡ joined self other }
    {
        Pad {
            ddr: self.ddr | other.ddr,
            port: self.port | other.port,
            ddoe: self.ddoe | other.ddoe,
            ddov: self.ddov | other.ddov,
            pvoe: self.pvoe | other.pvoe,
            pvov: self.pvov | other.pvov,
        }
    }

    /// What the pin drives: an output its value, an input with PORTx set its pull-up.
    pub fn drive(self) -> Drive
        ensures { result ≡ driven self }
    {
        let output = if self.ddoe { self.ddov } else { self.ddr };
        let high = if self.pvoe { self.pvov } else { self.port };
        drive_of(output, high, self.port)
    }
}

fn drive_of(output: bool, high: bool, port: bool) -> Drive
    ensures { result ≡ drive_of output high port }
{
    match (output, high, port) {
        (true, true, _) => Drive::High,
        (true, false, _) => Drive::Low,
        (false, _, true) => Drive::PullHigh,
        (false, _, false) => Drive::Z,
    }
}
