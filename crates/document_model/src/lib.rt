//! The documents of a project, as definitions: what a JSON or TOML text means, or the first rule that it breaks
//! with its place.
//! Of code there are the types alone: the readers in the crates above are proved against these.
#![tactic(auto)]

mod diagram;
mod project;

pub use diagram::{Diagram, PartText, Wire};
pub use project::{ChipFile, ChipPins, Project};
