//! A chip's file of pins as a JSON document.
ghost use Rattle.std.specs.Prelude.{◌≡◌, map, option_map, IfOk};
ghost use Rattle.sim_base.specs.Reads.{Reads};
ghost use Rattle.serde_json.specs.View.{view};
ghost use Rattle.chip_json.specs.ChipJson.{chip_of, chip_text, pins_from, strings_of};
ghost use Rattle.chip_json.specs.Texts.{texts_in};

use crate::names::{have_good_names, pins_of};
use crate::refusals::refused;
use diagram_json::{array_of, read_json};
use document_model::ChipPins;
use serde_json::Value;
use sim_base::{Fault, OutOfMemory};
use sim_refusals::numbers::{CHIP_LIMIT, CHIP_PIN_NAME, CHIP_SHAPE, CHIP_TEXT};
use std::alloc::Global;

/// The items of an array that are all strings.
fn texts_of(alloc: Global, items: &[Value]) -> Result<Option<Vec<&str>>, OutOfMemory>
    ensures { IfOk result (λ texts. option_map (λ t. texts_in t.items) texts ≡ strings_of (map view items.now)) }
{
    let mut texts = Vec::new(alloc);
    for i in 0..items.len() {
        match items[i].as_str() {
            Some(text) => texts.push(text)?,
            None => return Ok(None),
        }
    }
    Ok(Some(texts))
}

fn read_pins(alloc: Global, texts: &[&str]) -> Result<ChipPins, Fault>
    ensures { Reads (λ pins. pins) result (pins_from (texts_in texts.now)) }
{
    if !have_good_names(alloc, texts)? {
        return Err(refused(CHIP_PIN_NAME));
    }
    if texts.len() > 64 {
        return Err(refused(CHIP_LIMIT));
    }
    Ok(pins_of(alloc, texts)?)
}

fn chip(alloc: Global, document: &Value) -> Result<ChipPins, Fault>
    ensures { Reads (λ pins. pins) result (chip_of (view document.now)) }
{
    if document.get("name").and_then(Value::as_str).is_none() {
        return Err(refused(CHIP_SHAPE));
    }
    let items = match array_of(document, "pins") {
        Some(items) => items,
        None => return Err(refused(CHIP_SHAPE)),
    };
    match texts_of(alloc, items)? {
        Some(texts) => read_pins(alloc, texts.as_slice()),
        None => Err(refused(CHIP_SHAPE)),
    }
}

/// The pins of a chip by their positions. Members that no rule names are passed over.
/// Refuses at Whole with 50 ChipText, 51 ChipShape, 52 ChipPinName and 53 ChipLimit, in this order.
pub fn read_chip_json(alloc: Global, bytes: &[u8]) -> Result<ChipPins, Fault>
    ensures { Reads (λ pins. pins) result (chip_text bytes.now) }
{
    let document = read_json(alloc, CHIP_TEXT, bytes)?;
    chip(alloc, &document)
}
