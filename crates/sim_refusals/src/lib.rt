//! The numbered refusals: one table of their numbers and names.
//! The constants are proved to be the numbers of the table in `specs/Refusals.antt`. No call fails.
#![tactic(auto)]

pub mod numbers;
mod table;

pub use table::refusal_name;
