//! The trait `Unit` with its law: what a hardware unit of the microcontroller is, how it may lag behind the board,
//! how two units become one, and how the clock of some stops (data sheet, "Register Summary", "Reset and Interrupt
//! Vectors", "Alternate Port Functions").
//! A unit is moved by one cycle at a time; one without an event may lag behind; several side by side are one. No
//! call takes memory, and none fails.
#![tactic(auto)]

mod bits;
mod both;
mod clock;
mod coming;
mod group;
mod late;
mod pad;
mod pins;
mod powered;
mod request;
mod seldom;
mod signal;
mod unit;

pub use bits::{has_bit, mask, one, with_bit};
pub use both::{Both, hull};
pub use clock::Clock;
pub use coming::{comes, or_end, within_run};
pub use group::{AwakeGroup, Group, notices, wait};
pub use late::Late;
pub use pad::Pad;
pub use pins::{PORT_PINS, pins_if};
pub use powered::Powered;
pub use request::{Request, VECTORS, least};
pub use seldom::Seldom;
pub use signal::Signal;
pub use unit::{Awake, Unit};
