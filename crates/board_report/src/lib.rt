//! The report of a board: a line for the cycles of its run, and the lines of each part in order
//! (`specs/Report.antt`).
//! No call takes memory; a write may fail, and nothing is written after one that did.
#![tactic(auto)]

mod report;

pub use report::{Shown, write_report_of};
