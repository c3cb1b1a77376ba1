//! A chip of a project.
ghost use Rattle.std.specs.Prelude.{◌≡◌, IfOk};
ghost use Rattle.chip_module.specs.Sources.{pins_of};

use crate::binary::ChipModule;
use sim_base::{Display, List, Name, OutOfMemory};
use std::alloc::Global;

/// A chip of a project: its module, its pins by their positions, and the size of its display, if it has one.
#[derive(Drop)]
pub struct ChipSource {
    pub binary: ChipModule,
    pub pins: List<Option<Name>>,
    pub display: Option<Display>,
}

/// The same pins once more.
pub fn copied_pins(
    alloc: Global,
    pins: &List<Option<Name>>,
) -> Result<List<Option<Name>>, OutOfMemory>
    ensures { IfOk result (λ copy. copy ≡ pins.now) }
{
    let mut copy = List::new(alloc);
    for pin in pins.as_slice() {
        match pin {
            Some(name) => copy.push(Some(name.copy()))?,
            None => copy.push(None)?,
        }
    }
    Ok(copy)
}

/// The pins of each chip.
pub fn pins_of(alloc: Global, chips: &[ChipSource]) -> Result<List<List<Option<Name>>>, OutOfMemory>
    ensures { IfOk result (λ pins. pins ≡ pins_of chips.now) }
{
    let mut pins = List::new(alloc);
    for chip in chips {
        pins.push(copied_pins(alloc, &chip.pins)?)?;
    }
    Ok(pins)
}
