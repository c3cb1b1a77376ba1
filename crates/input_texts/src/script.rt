//! What a script says.

use sim_base::{List, Name};

/// The lines of a script that act on parts, in their order.
pub type Script = List<ScriptRow>;

/// A line that gives a part a value in a cycle; `line` counts all lines of the file from 1. `press`
/// tells `press`, of value 1, and `release`, of value 0, from `set`.
#[derive(Drop)]
pub struct ScriptRow {
    pub line: u32,
    pub cycle: u32,
    pub part: Name,
    pub press: bool,
    pub value: u32,
}
