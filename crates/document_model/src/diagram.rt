//! What a diagram says.

use sim_base::{List, Name, Text};

/// The parts of a board, and the wires between their pins.
#[derive(Drop)]
pub struct Diagram {
    pub parts: List<PartText>,
    pub wires: List<Wire>,
}

/// A part: its type, its id, and its attributes in the order of their keys.
#[derive(Drop)]
pub struct PartText {
    pub kind: Text,
    pub id: Name,
    pub attrs: List<(Text, Text)>,
}

/// A wire from one pin to another, each an id and a pin's name.
#[derive(Drop)]
pub struct Wire {
    pub from: (Name, Name),
    pub to: (Name, Name),
    /// The connection's place in the file, from 1.
    pub number: u32,
}
