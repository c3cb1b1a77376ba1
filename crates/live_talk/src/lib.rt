//! A conversation with a live board of any parts: what names of requests mean on it, what a line of a script gives, where a run
//! ends, and how an answer is said (`live_model`). Only `act` takes memory; another call fails only if a write does.
#![tactic(auto)]

mod acts;
mod answers;
mod legs;
mod names;
mod requests;
mod waiting;

pub use answers::tell;
pub use legs::leg;
pub use requests::{act, level, page, refuse, run, wave};
