//! The arithmetic of the ATmega328P (AVR Instruction Set Manual): values and the flags of SREG.
//! Each call is exact: its value, and its flags by the manual's Boolean formulas.
//! No call takes memory, and none fails.
#![tactic(auto)]

mod bits;
mod bytes;
mod flags;
mod pairs;
mod told;

pub use bytes::{add, com, dec, inc, logic, neg, shift, sub};
pub use flags::Flags;
pub use pairs::{adiw, product, sbiw};
pub use told::Told;
