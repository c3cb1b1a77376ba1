//! All that is generated from a seed.
ghost use Rattle.std.specs.Prelude.{◌≡◌, ◌≤◌, IfOk, length};
ghost use Rattle.board_make.specs.Board.{chip_pins, diagram, project};
ghost use Rattle.board_make.specs.Firmware.{image};
ghost use Rattle.board_make.specs.Inverter.{inverter};

use crate::board::{chip_pins, diagram, project};
use crate::firmware::firmware;
use crate::inverter::INVERTER;
use document_model::{ChipPins, Diagram, Project};
use sim_base::{Flash, OutOfMemory};
use std::alloc::{AllocError, Global};

/// What the files of a project stand for: `wokwi.toml`, the firmware, `diagram.json`, and of its one chip the pins and the
/// bytes of its module.
#[derive(Drop)]
pub struct Made {
    pub project: Project,
    pub flash: Flash,
    pub diagram: Diagram,
    pub pins: ChipPins,
    pub module: Vec<u8>,
}

fn inverter(alloc: Global) -> Result<Vec<u8>, AllocError>
    ensures { IfOk result (λ v. v.items ≡ inverter) }
{
    let mut bytes = Vec::new(alloc);
    bytes.extend_from_slice(&INVERTER)?;
    Ok(bytes)
}

/// The project of a seed: an Uno whose firmware writes drawn values to pins 0 to 13 without an end, a resistor and an LED on
/// each of pins 2 to 9, two inverters, which are chips, on two drawn pins, and a gate behind them.
pub fn make(alloc: Global, seed: u32) -> Result<Made, OutOfMemory>
    ensures project { IfOk result (λ m. m.project ≡ project) }
    ensures flash { IfOk result (λ m. m.flash ≡ image seed) }
    ensures diagram { IfOk result (λ m. m.diagram ≡ diagram seed) }
    ensures pins { IfOk result (λ m. m.pins ≡ chip_pins) }
    ensures inverter { IfOk result (λ m. m.«module».items ≡ inverter) }
{
    Ok(Made {
        project: project(alloc)?,
        flash: firmware(alloc, seed)?,
        diagram: diagram(alloc, seed)?,
        pins: chip_pins(alloc)?,
        module: inverter(alloc)?,
    })
}
