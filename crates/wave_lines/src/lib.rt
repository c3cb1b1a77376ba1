//! The lines of a wave that is read, one by one: what a line says after those before it, where a text ends, and the
//! rows of a value from cycle to cycle.
//! Readers of the values of nets and of what pins drive stand on these.
#![tactic(auto)]

mod given;
mod line;
mod rows;
mod text;

pub use given::Given;
pub use line::{Line, Stage, after_value, is_printable, read_line};
pub use rows::{RowValue, set_row};
pub use text::{behind, end_fault, refused, split_line};
