//! A large board that is the same for a seed on every machine: its project, firmware, diagram and chip.
//! `make` gives them exactly (`specs/Board.antt`, Firmware, Inverter); it answers otherwise only where memory runs
//! out.
#![tactic(auto)]

mod board;
mod draws;
mod firmware;
mod inverter;
mod made;

pub use made::{Made, make};
