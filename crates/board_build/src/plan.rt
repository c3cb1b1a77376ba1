//! What a board is made of.

use part_catalog::{Kind, Settings};
use sim_base::{Input, List, Name, Text, Wiring};

/// What a part is: of a kind of the catalogue, or a custom chip by its place in the project from 0.
#[derive(Clone, Copy, Debug, PartialEq, Eq)]
pub enum PlanKind {
    Stock(Kind),
    Chip(u8),
}

/// A part with what its attributes set, both 0 for a chip.
#[derive(Drop)]
pub struct PlanPart {
    pub id: Name,
    pub kind: PlanKind,
    pub settings: Settings,
    pub attrs: List<(Text, Text)>,
}

/// The parts in the order of the diagram, what joins their pins, and the values of a script. Nets are
/// numbered in the order of their first pins.
#[derive(Drop)]
pub struct Plan {
    pub parts: List<PlanPart>,
    pub wiring: Wiring,
    pub inputs: List<Input>,
}
