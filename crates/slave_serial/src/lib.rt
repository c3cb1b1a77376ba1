//! The UART and the SPI slave of a chip, on the levels of its pins (the bits on the lines are those of the ATmega328P
//! data sheet, "USART0", "Frame Formats", and "SPI - Serial Peripheral Interface", "Data Modes").
//! Each call leaves what as many single cycles of the definitions (`specs/Uart.antt`, `specs/Spi.antt`) leave.
//! No call takes memory, and none fails.
#![tactic(auto)]

mod buffer;
mod reception;
mod sending;
mod transaction;
mod transceiver;

pub use transaction::{Spi, Wires};
pub use transceiver::Uart;
