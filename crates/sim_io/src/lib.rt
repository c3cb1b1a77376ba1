//! What every command is made of: how it ends, reading a file, writing a text on a port, and the line on Complaint
//! (`sim_outcome_model`).
//! No call but those that take an allocator takes memory.
#![tactic(auto)]

mod complaint;
mod outcome;
mod reading;
mod writing;

pub use complaint::tell;
pub use outcome::{Stop, WorkEnd, status, stopped};
pub use reading::{Document, HexFile, read_bytes, read_document, read_within};
pub use writing::{write_next, write_parts, write_text};
