//! The counter of the three timers (ATmega328P data sheet, "Timer/Counter"): one definition for all their modes,
//! what a tick leaves, and what many ticks without an event leave; its compare channels, flags and prescaler.
//! No call takes memory, and none fails.
#![tactic(auto)]

mod channel;
mod counter;
mod flags;
mod mode;
mod timing;
mod wheel;

pub use channel::Channel;
pub use counter::Counter;
pub use mode::{Com, Kind, Mode, Row, Top, mode_by};
pub use timing::Timing;
