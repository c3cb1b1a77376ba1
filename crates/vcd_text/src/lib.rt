//! The wave of a run as a value change dump (IEEE 1364-2005, clause 18, "Value change dump (VCD)
//! files"), written while the run goes on, and the bytes of the serial port; and a wave that is read.
//! A writer's ports hold exactly the text of the rows and the bytes that it was handed, or a first
//! part of it after a write that failed. `read_wave` answers what its text says, or the first refusal
//! with its line. Only it and `WaveHead::of` take memory.
#![tactic(auto)]

mod buffer;
mod chains;
mod changes;
mod declarations;
mod follow;
mod head;
mod line;
mod pins;
mod read;
mod row;
mod tracks;
mod value;
mod variable;
mod writer;

pub use head::WaveHead;
pub use read::read_wave;
pub use tracks::DriveRows;
pub use value::value_of;
pub use variable::{Source, Variable};
pub use writer::{WaveMark, WaveWriter};
