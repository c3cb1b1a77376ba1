//! The run of a project's board for a command: its bytes on Serial, its wave and its report each in a file, if one
//! is named.
//! `run_board` leaves the texts of the board stepped cycle by cycle (`specs/Run.antt`), and `count_board` counts what they
//! would have and writes nothing; memory runs out, if it does, before a port is opened.
#![tactic(auto)]

mod counting;
mod playing;
mod running;

pub use counting::count_board;
pub use playing::{Loaded, write_run};
pub use running::{Contents, load_board, make_head, run_board};
