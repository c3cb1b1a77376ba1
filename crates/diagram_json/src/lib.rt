//! The diagram of a board, `diagram.json`, as its parts and wires.
//! The reader answers what the text stands for, or the first rule that is broken with its place
//! (`document_model`, Diagram); out of memory is the one other answer.
#![tactic(auto)]

mod connections;
mod documents;
mod parts;
mod refusals;

pub use document_model::{Diagram, PartText, Wire};
pub use documents::{array_of, read_diagram, read_json};
pub use parts::read_id;
