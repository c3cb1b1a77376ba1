//! The levels of a live board in its own cycle, before that cycle is run.
//! They are those of the board that is stepped cycle by cycle, in the cycle that comes next. Only `Probe::new` takes memory.
#![tactic(auto)]

mod copying;
mod probe;

pub use probe::Probe;
