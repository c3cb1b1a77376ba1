//! Parts without events of their own, written once: a `Behaviour` says what a part does when a level changes or a
//! script value comes, and `Reactive` makes a part of it.
//! No call takes memory, and none fails.
#![tactic(auto)]

mod behaviour;
mod pins;
mod reactive;

pub use behaviour::Behaviour;
pub use pins::{bit, falls, is_low, output, reads_at, rises};
pub use reactive::Reactive;
