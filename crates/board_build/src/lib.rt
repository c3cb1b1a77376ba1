//! The plan of a board from its documents: its parts, what joins their pins, and a script's values.
//! `build` answers the plan, or the first rule of the board that fails (`specs/Plan.antt`); want of
//! memory is the one other answer.
#![tactic(auto)]

mod board;
mod ids;
mod inputs;
mod kinds;
mod parts;
mod pins;
mod plan;
mod refusals;
mod wiring;

pub use board::build;
pub use parts::copied;
pub use plan::{Plan, PlanKind, PlanPart};
