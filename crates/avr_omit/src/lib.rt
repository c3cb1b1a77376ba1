//! What firmware can ask for that this Uno leaves out: a table of addresses, masks and values, and the first write
//! that asked for each thing.
//! No call takes memory, and none fails.
#![tactic(auto)]

mod kept;
mod omission;

pub use kept::{Asked, OMISSIONS, Omissions};
pub use omission::{Omission, left_out, left_out_beside};
