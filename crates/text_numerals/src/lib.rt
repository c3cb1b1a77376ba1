//! Numbers in digits of a radix, as attributes and scripts have them (`specs/Numerals.antt`).
//! The call is exact, takes no memory and does not fail.
#![tactic(auto)]

mod numeral;

pub use numeral::read_numeral;
