//! What a project file says.

use sim_base::{List, Name, Text};

/// The firmware's file, and the chips in the order of the file.
#[derive(Drop)]
pub struct Project {
    pub firmware: Text,
    pub chips: List<ChipFile>,
}

/// A custom chip: its name, the file of its module, and the file of its pins.
#[derive(Drop)]
pub struct ChipFile {
    pub name: Name,
    pub binary: Text,
    pub json: Text,
}

/// The pins of a chip by their positions; None is a position that is skipped.
pub type ChipPins = List<Option<Name>>;
