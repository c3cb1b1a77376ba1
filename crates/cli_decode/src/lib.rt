//! The command `decode`: the frames on a serial bus, read from a wave.
//! `decode` ends as its answer says (`specs/Answer.antt`).
#![tactic(auto)]

mod decoding;

pub use decoding::decode;
