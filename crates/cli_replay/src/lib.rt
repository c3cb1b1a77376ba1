//! The command `replay`: a project whose chips drive what a wave says, and its bytes, its wave and its report.
//! `replay` ends as its answer says (`specs/Answer.antt`); memory runs out, if it does, before a port is
//! opened.
#![tactic(auto)]

mod replaying;

pub use replaying::replay;
