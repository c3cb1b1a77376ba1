//! The catalogue of parts: types, pins, what is joined inside a part, and attributes (Wokwi
//! documentation, "Diagram file format" and the pages of the parts).
//! Each call equals its table in `specs/`. No call takes memory, and none fails.
#![tactic(auto)]

mod kind;
mod pins;
mod settings;

pub use kind::{Kind, kind_of};
pub use pins::{contacts_of, joins, pin_count, pin_name, pin_number};
pub use settings::{Settings, greatest_value, kind_with, settings_of};
