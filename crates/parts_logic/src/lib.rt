//! Logic gates and the shift register 74HC595, as behaviours (function tables of the data sheets of
//! the 74HC series; Wokwi documentation, "wokwi-74hc595"). Each is exactly its kind in `specs/`.
//! No call takes memory, and none fails.
#![tactic(auto)]

mod gate;
mod shift595;

pub use gate::{Gate, GateOp};
pub use shift595::Shift595;
