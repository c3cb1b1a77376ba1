//! The command `make`: a run of the board that is generated from a seed, and what it counts.
//! `make` ends as its answer says (`specs/Answer.antt`); memory runs out, if it does, before a port is opened.
#![tactic(auto)]

mod project;
mod running;

pub use running::make;
