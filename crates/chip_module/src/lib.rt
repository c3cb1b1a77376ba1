//! The module of a chip, accepted: decoded, validated, and with imports that the host has.
//! `ChipModule::read` is exact: what the bytes stand for, or why they stand for nothing: a rule that their text
//! breaks, or the first of validity and of imports that fails (`specs/Binary.antt`). A call answers otherwise only
//! where memory runs out.
#![tactic(auto)]

mod binary;
mod source;

pub use binary::ChipModule;
pub use source::{ChipSource, copied_pins, pins_of};
