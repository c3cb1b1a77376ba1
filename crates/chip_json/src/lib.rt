//! The file of a chip's pins and display, `NAME.json` beside its module (Wokwi documentation, "Chip JSON File").
//! Each reader answers what the text stands for, or the first rule that is broken (`specs/`); out of memory is the one
//! other answer.
#![tactic(auto)]

mod display;
mod documents;
mod names;
mod refusals;

pub use display::{read_chip_display, read_chip_file};
pub use document_model::ChipPins;
pub use documents::read_chip_json;
