//! The lines of the report, which has the final states of a run, one fact a line (`specs/Lines.antt`).
//! A line is written by two to four writes, and none follows one that fails. No call takes memory; a write may
//! fail.
#![tactic(auto)]

mod line;
mod omissions;
mod report;
mod row;

pub use omissions::write_omissions;
pub use report::write_report;
pub use row::{ReportRow, UnoMode};
