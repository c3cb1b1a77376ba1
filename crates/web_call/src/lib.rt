//! The simulator for a caller that has its files in memory and passes bytes: a web page, or Node.
//! `call` takes one list of words and files and leaves what the ports hold, as blocks.
//! It answers the status, or 100 to 102 where there is none to answer.
#![tactic(auto)]

mod blocks;
mod calling;
mod entries;

pub use calling::{NO_LIST, OUT_OF_MEMORY, TOO_LONG, call};
