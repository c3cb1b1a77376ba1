//! The due cycles of the parts of a board with the first at hand, in a tournament tree.
//! `first` is exact: the least due cycle, with the least part that has it. Only `DueTree::new` takes memory;
//! nothing else fails.
#![tactic(auto)]

mod due_tree;
mod entry;

pub use due_tree::DueTree;
