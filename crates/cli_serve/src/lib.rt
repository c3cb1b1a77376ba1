//! The command `serve`: a live board of a project, which is asked on standard input and answers on standard output.
//! The project is read and checked as `run` does it; what is wrong with it, and want of memory for the board, comes before the first
//! answer. `serve` ends as its answer says (`specs/Answer.antt`).
#![tactic(auto)]

mod serving;
mod talker;

pub use serving::serve;
