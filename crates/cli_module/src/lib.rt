//! The module of a chip's file, and the command `module`: whether it is accepted.
//! `read_module` gives what the file's bytes are worth (`chip_module`), and `check_module` ends as its answer says
//! (`specs/Answer.antt`).
#![tactic(auto)]

mod judging;

pub use judging::{check_module, read_module};
