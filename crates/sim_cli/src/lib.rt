//! `simulate`, the program without its edge: the words of the command line, the files that they name, and what is
//! written on the ports.
//! `simulate` does all of it and answers the status.
#![tactic(auto)]

mod simulation;

pub use simulation::simulate;
