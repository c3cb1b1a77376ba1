//! The reader of scripts, which say what is done to the parts of a board, and when.
//! It answers what its text stands for, or the first rule that is broken with its line
//! (`specs/Script.antt`); out of memory is the one other answer.
#![tactic(auto)]

mod action;
mod script;
mod words;

pub use script::read_script;
