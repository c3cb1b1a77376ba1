//! The command `bare`: the wave of one Uno without wires.
//! `bare` ends as its answer says (`specs/Answer.antt`); memory runs out, if it does, before a port is
//! opened.
#![tactic(auto)]

mod running;
mod uno;

pub use running::bare;
