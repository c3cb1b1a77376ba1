//! A live board whose wave and bytes are written as far as it is run, in any number of pieces.
//! At each cycle the ports have what a run to that cycle with a script of all values that were given would have
//! written, but for the wave's last lines, which are kept; `close` writes these. No call takes memory; a write may
//! fail.
#![tactic(auto)]

mod play;

pub use play::{Play, begin, close, flush, play_to};
