//! The serial engines of a chip, each with its pins: a UART, an SPI slave or an I2C slave, what it calls back for,
//! and the bytes that it is given to send (docs/CHIPS.md, "Serial engines").
//! Each call leaves what the definition (`specs/Engine.antt`) leaves; a turn is one cycle of the engine's machine.
//! No call takes memory, and none fails.
#![tactic(auto)]

mod due;
mod engine;
mod list;
mod serial;

pub use due::{due_from, earlier};
pub use engine::{Callbacks, Engine, Pins, Turn};
pub use list::{driven, first_engine, free, turn_at};
pub use serial::{Inputs, Serial};
