//! The project file, `wokwi.toml`: its firmware and its chips.
//! The reader answers what the text stands for, or the first rule that is broken with its place
//! (`document_model`, Project); out of memory is the one other answer.
#![tactic(auto)]

mod chips;
mod project;
mod refusals;

pub use document_model::{ChipFile, ChipPins, Project};
pub use project::read_project;
