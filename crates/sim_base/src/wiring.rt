//! What joins the parts of a board, and what a script gives them.
use crate::list::List;

/// Nets are numbered from 0. `net_of` has the net of each pin, all pins of part 0, then of part 1,
/// and so on; `contacts` has the nets of all contacts in the same order. A part's pins begin at
/// `first_pin`, and `chip` tells whether it is a custom chip.
#[derive(Drop)]
pub struct Wiring {
    pub nets: u16,
    pub net_of: List<u16>,
    pub contacts: List<(u16, u16)>,
    pub resistors: List<(u16, u16)>,
    pub first_pin: List<u16>,
    pub chip: List<bool>,
}

/// One value of a script for one part, taken in the part's step of that cycle.
#[derive(Clone, Copy, Debug, PartialEq, Eq)]
pub struct Input {
    pub cycle: u64,
    pub part: u8,
    pub value: u16,
}
