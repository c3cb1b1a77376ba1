//! Two boards that differ in their chips alone, run as one: each part that is no chip is moved once.
//! A `Twin` answers with the first cycle, chip and pin in which the chips of the two drive otherwise, exactly where
//! there is one. `Twin::new` alone takes memory and may answer `OutOfMemory`.
#![tactic(auto)]

mod beside;
mod chips;
mod compare;
mod twin;

pub use twin::{Twin, TwinEnd};
