//! The lines of a report for what a chip printed and drew (docs/REPORT.md), written in pieces (`specs/Lines.antt`).
//! Each call writes exactly its lines, or a first part of them where a write fails, and none follows one that fails.
//! No call takes memory.
#![tactic(auto)]

mod console;
mod display;
mod output;
mod piece;

pub use console::write_console;
pub use display::write_frame;
pub use output::write_output;
