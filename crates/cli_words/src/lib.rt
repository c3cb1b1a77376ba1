//! The words of the command line (`cli_words_model`), read by clap: the words after a command are its
//! positional words and its options.
//! `read_words` answers the request of the words exactly, or out of memory.
#![tactic(auto)]

mod commands;
mod number;
mod request;

pub use request::{NamedBus, NamedFiles, Request, read_words};
