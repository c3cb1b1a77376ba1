//! The display of a chip in its JSON document.
ghost use Rattle.std.specs.Prelude.{◌≡◌, ◌<◌, ◌^◌, if◌then◌else◌, Some, None};
ghost use Rattle.sim_base.specs.Reads.{Reads};
ghost use Rattle.sim_base.specs.Display.{is_display};
ghost use Rattle.serde_json.specs.View.{view};
ghost use Rattle.chip_json.specs.Display.{whole_at, size_of, display_of, display_text, pins_and_display};

use crate::documents::read_chip_json;
use crate::refusals::refused;
use diagram_json::read_json;
use document_model::ChipPins;
use serde_json::Value;
use sim_base::{Display, Fault};
use sim_refusals::numbers::{CHIP_DISPLAY, CHIP_TEXT};
use std::alloc::Global;

fn whole_at(value: &Value, key: &str) -> Option<u64>
    ensures { result ≡ whole_at key.now (view value.now) }
{
    value.get(key).and_then(Value::as_u64)
}

/// The display of this size; None exactly where no display has it.
fn display(width: u64, height: u64) -> Option<Display>
    ensures { result ≡ (if is_display width height then Some (record { width = width; height = height }) else None) }
{
    if width > 65_536 {
        return None;
    }
    if height > 65_536 {
        return None;
    }
    Display::new(width as u32, height as u32)
}

fn size_of(width: Option<u64>, height: Option<u64>) -> Option<Display>
    ensures { result ≡ size_of width height }
{
    match (width, height) {
        (Some(width), Some(height)) => display(width, height),
        (Some(_), None) | (None, _) => None,
    }
}

fn display_of(document: &Value) -> Result<Option<Display>, Fault>
    ensures { Reads (λ display. display) result (display_of (view document.now)) }
{
    let Some(value) = document.get("display") else {
        return Ok(None);
    };
    match size_of(whole_at(value, "width"), whole_at(value, "height")) {
        Some(display) => Ok(Some(display)),
        None => Err(refused(CHIP_DISPLAY)),
    }
}

/// The size of a chip's display; None where the file has no `display`.
/// Refuses at Whole with 50 ChipText and 54 ChipDisplay, in this order.
pub fn read_chip_display(alloc: Global, bytes: &[u8]) -> Result<Option<Display>, Fault>
    ensures { Reads (λ display. display) result (display_text bytes.now) }
{
    let document = read_json(alloc, CHIP_TEXT, bytes)?;
    display_of(&document)
}

/// The pins of a chip, and the size of its display; a refusal of the pins comes first.
pub fn read_chip_file(alloc: Global, bytes: &[u8]) -> Result<(ChipPins, Option<Display>), Fault>
    ensures { Reads (λ found. found) result (pins_and_display bytes.now) }
{
    let pins = read_chip_json(alloc, bytes)?;
    match read_chip_display(alloc, bytes) {
        Ok(display) => Ok((pins, display)),
        Err(fault) => Err(fault),
    }
}
