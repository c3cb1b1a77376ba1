//! What there is to show in a cycle.
use sim_base::{Drive, Level};

/// The levels of the nets and the drives of the pins in a cycle.
#[derive(Clone, Copy)]
pub struct Row<'a> {
    pub(crate) cycle: u64,
    pub(crate) levels: &'a [Level],
    pub(crate) drives: &'a [Drive],
}
