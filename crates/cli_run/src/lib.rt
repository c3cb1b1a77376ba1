//! The command `run`: a project's bytes, its wave and its report.
//! `run` ends as its answer says (`specs/Answer.antt`); memory runs out, if it does, before a port is
//! opened.
#![tactic(auto)]

mod running;

pub use running::run;
