//! The I2C slave of a chip or of a part, on the levels of SCL and SDA (UM10204, "I2C-bus specification and user manual", "The
//! I2C-bus protocol": START, STOP, 7-bit addresses, acknowledge; no clock stretching and no general call).
//! Each call leaves what as many single cycles of the definition (`specs/I2c.antt`) leave.
//! No call takes memory, and none fails.
#![tactic(auto)]

mod lines;
mod slave;

pub use lines::Lines;
pub use slave::{Phase, Slave};
