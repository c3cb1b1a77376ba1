//! What a live board of a project has before it is opened: its board, loaded, and room for what is asked of it.
//! `Ready::load` takes all memory but that of values that are given and of reports.
#![tactic(auto)]

mod page;
mod ready;

pub use page::Page;
pub use ready::Ready;
