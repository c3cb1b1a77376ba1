//! Which pins are one net, and the numbers of the nets.
//! The numbers are exactly those of the definition by walks; out of memory is the one other answer.
#![tactic(auto)]

mod numbers;

pub use numbers::{NetNumbers, number_nets};
