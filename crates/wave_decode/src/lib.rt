//! The frames on a serial bus, read from a wave. `read_levels` answers the levels of one or two
//! variables of a wave, or the first refusal with its line; `frames` writes the lines that tell what is
//! on the bus. Only `read_levels` takes memory, however many frames and variables there are.
#![tactic(auto)]

mod body;
mod bus;
mod gathered;
mod head;
mod hear;
mod levels;
mod line;
mod listen;
mod names;
mod telling;
mod wire;

pub use bus::Bus;
pub use levels::{LevelRows, read_levels};
pub use listen::frames;
