//! The command `twin`: whether the chips of two projects that share all else drive the same on one board.
//! `twin` ends as its answer says (`specs/Answer.antt`); memory runs out, if it does, before a port is opened.
#![tactic(auto)]

mod chips;
mod line;
mod pair;
mod running;
mod sharing;

pub use running::twin;
