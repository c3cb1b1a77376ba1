//! The names of a chip's pins.
ghost use Rattle.std.specs.Prelude.{◌≡◌, [], map, IfOk};
ghost use Rattle.chip_json.specs.ChipJson.{are_pin_names, pin_of};
ghost use Rattle.chip_json.specs.Texts.{texts_in};

use document_model::ChipPins;
use indexmap::IndexSet;
use sim_base::{List, Name, OutOfMemory};
use std::alloc::Global;

/// The text as a pin's name; None exactly where it is none.
fn read_pin_name(text: &str) -> Option<Name>
    ensures { result ≡ pin_of text.now }
{
    if text.len() > 32 {
        return None;
    }
    Name::read(text)
}

/// Whether each text is empty or a pin's name that no text before it is.
pub(crate) fn have_good_names(alloc: Global, texts: &[&str]) -> Result<bool, OutOfMemory>
    ensures { IfOk result (λ good. good ≡ are_pin_names [] (texts_in texts.now)) }
{
    let mut seen = IndexSet::new(alloc);
    for i in 0..texts.len() {
        let text = texts[i];
        if text.is_empty() {
            continue;
        }
        if read_pin_name(text).is_none() {
            return Ok(false);
        }
        if !seen.insert(text.as_bytes())? {
            return Ok(false);
        }
    }
    Ok(true)
}

/// The pins by their positions.
pub(crate) fn pins_of(alloc: Global, texts: &[&str]) -> Result<ChipPins, OutOfMemory>
    ensures { IfOk result (λ pins. pins ≡ map pin_of (texts_in texts.now)) }
{
    let mut pins = List::new(alloc);
    for i in 0..texts.len() {
        pins.push(read_pin_name(texts[i]))?;
    }
    Ok(pins)
}
