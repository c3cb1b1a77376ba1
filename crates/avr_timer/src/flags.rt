//! TIFRn and TIMSKn, as far as all three timers have them.
ghost use Rattle.std.specs.Prelude.{◌≡◌, ◌+◌, ◌<◌, ◌≤◌};
ghost use Rattle.avr_timer.specs.Flags.{flag_bits, with_flags, requests_from, entered};

use crate::counter::Counter;
use avr_unit::{Request, has_bit, one};

// TIFRn: TOVn, OCFnA, OCFnB; TIMSKn: TOIEn, OCIEnA, OCIEnB
const TOVn: u8 = 0;

const OCFnA: u8 = 1;

const OCFnB: u8 = 2;

impl Counter {
    /// OCFnB, OCFnA and TOVn as bits 2 to 0.
    pub fn flag_bits(&self) -> u8
        ensures value { result ≡ flag_bits self.now }
        ensures short { result < 8 }
    {
        4 * one(self.b.flag) + 2 * one(self.a.flag) + one(self.tov)
    }

    /// Writes TIFRn.
    pub fn write_flags(&mut self, value: u8)
        ensures { self.new ≡ with_flags self.old value }
    {
        self.tov = self.tov & !has_bit(value, TOVn);
        self.a.flag = self.a.flag & !has_bit(value, OCFnA);
        self.b.flag = self.b.flag & !has_bit(value, OCFnB);
    }

    /// The requests of COMPA, COMPB and OVF, the first of which has this vector.
    pub fn requests_from(&self, vector: u8, timsk: u8) -> [Request; 3]
        requires { vector < 24 }
        ensures { result ≡ requests_from vector timsk self.now }
    {
        [
            Request {
                vector,
                enabled: has_bit(timsk, OCFnA),
                flag: self.a.flag,
            },
            Request {
                vector: vector + 1,
                enabled: has_bit(timsk, OCFnB),
                flag: self.b.flag,
            },
            Request {
                vector: vector + 2,
                enabled: has_bit(timsk, TOVn),
                flag: self.tov,
            },
        ]
    }

    /// Clears what entering one of the three clears.
    pub fn enter(&mut self, vector: u8, taken: u8)
        requires { vector < 24 }
        ensures { self.new ≡ entered vector self.old taken }
    {
        if taken == vector {
            self.a.flag = false;
        } else if taken == vector + 1 {
            self.b.flag = false;
        } else if taken == vector + 2 {
            self.tov = false;
        }
    }
}
