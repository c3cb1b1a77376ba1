//! Union-find with path halving: numbered places that pairs join, each labelled with the least place of its class.
//! Two places have one label exactly where a walk over the pairs leads from one to the other. No call takes memory,
//! and none fails.
#![tactic(auto)]

mod forest;
mod labels;

pub use labels::{join_chosen, join_pairs, label_chosen, label_pairs};
