//! A live board of a project: what it answers to each request is what `live_model` says of the project's board and of the requests
//! so far. Memory is taken for values that are given and for reports alone, and before by `Ready::load`.
#![tactic(auto)]

mod answering;
mod live;

pub use live::{Live, Next};
pub use live_start::Ready;
