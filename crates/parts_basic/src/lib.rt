//! The parts that a diagram needs first, as behaviours: the LED, and parts whose drives and contacts depend on a
//! set value alone (switches, potentiometer, sources, supplies, resistors, junctions, texts).
//! Each is exactly its kind in `specs/`. No call takes memory, and none fails.
#![tactic(auto)]

mod led;
mod passive;

pub use led::Led;
pub use passive::Passive;
