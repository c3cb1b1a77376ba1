//! A project in a folder, read and checked (`project_model`), and the command `check`.
//! Each call ends as its definition says; out of memory comes before a port is opened.
#![tactic(auto)]

mod checking;
mod chips;
mod documents;
mod project;

pub use checking::check;
pub use documents::name_in;
pub use project::{ScriptedProject, Work, plan_board, read_folder, read_work};
