//! Typing of bodies (WebAssembly core specification, "Validation", "Instructions"), over nested code in the definitions and flat
//! code in the calls. `failing` answers None exactly for a typed body in which no more operands stand than may, and else its
//! first instruction that fails, with 70 ValidIndex, 71 ValidType or 79 ValidLimit. It may answer out of memory.
#![tactic(auto)]

mod body;
mod checker;
mod context;
mod floats;
mod open;
mod operands;
mod steps;

pub use body::{Failure, are_below, exists, failing};
pub use context::BodyContext;
