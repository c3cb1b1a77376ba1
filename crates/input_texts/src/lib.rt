//! The reader of the firmware as Intel HEX, and what a script means.
//! Each reader answers what its text stands for, or the first rule that is broken with its line (`text_model`,
//! Hex); out of memory is the one other answer.
#![tactic(auto)]

mod hex;
mod lines;
mod record;
mod script;

pub use hex::read_hex;
pub use lines::{find, next_line};
pub use script::{Script, ScriptRow};
