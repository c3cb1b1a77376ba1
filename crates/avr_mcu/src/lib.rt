//! The microcontroller ATmega328P of an Arduino Uno as a part of a board: core, units, SRAM and plain registers
//! (data sheet; AVR Instruction Set Manual).
//! Each cycle is one step of the definition `Mcu`: the core acts, then each unit steps. It is due where the core
//! does something and where a unit has an event. Only `Mcu::new` takes memory, and may fail for want of it.
#![tactic(auto)]

mod asking;
mod attended;
mod devices;
mod follow;
mod mcu;
mod pins;
mod turned;
mod units;

pub use mcu::Mcu;
pub use pins::UNO_PINS;
