//! A chip: a module that runs as a part of a board, called when a timer is due, a watched pin changes, or a serial
//! engine requests something.
//! Each call leaves what the definition (`specs/Chip.antt`) leaves; a trap ends the chip. Only `Chip::new` takes
//! memory.
#![tactic(auto)]

mod arguments;
mod attributes;
mod calls;
mod chip;
mod death;
mod engines;
mod host;
mod lists;
mod pin;
mod room;
mod shown;
mod span;
mod timer;
mod turns;
mod watch;

pub use chip::Chip;
pub use death::Death;
