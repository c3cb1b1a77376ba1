//! The run of a board of any parts for a command: the bytes on Serial, and the wave in a file if one is named.
//! `open_and_play` opens the outputs and leaves the wave and the bytes of the board stepped cycle by cycle
//! (`specs/Run.antt`, `specs/Ran.antt`), and `count` counts what they would have and writes nothing. Only
//! `wave_head` takes memory.
#![tactic(auto)]

mod counting;
mod playing;
mod variables;

pub use counting::count;
pub use playing::{Outputs, open_and_play};
pub use variables::wave_head;
