//! The levels of the nets of a board: what the pins drive, over closed contacts and resistors.
//! `Nets::resolve_marked` is exactly the definition and lists the nets that changed, at a cost that grows with what
//! changed pins and contacts touch. Only `new` takes memory and may fail.
#![tactic(auto)]

mod cut;
mod groups;
mod levels;
mod marks;
mod nets;
mod resolution;
mod room;
mod shown;
mod subcircuit;
mod sums;
mod watch;
mod whole;

pub use nets::{Nets, has_valid_nets};
