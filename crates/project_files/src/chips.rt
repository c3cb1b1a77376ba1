//! The chips of a project.
ghost use Rattle.std.specs.Prelude.{◌≡◌, ◌+◌, ◌++◌, ◌≤◌, [], map, length, codes, IfOk, Some, None, MatchOption, option_map, false, true, not, ◌&&◌, if◌then◌else◌};
ghost use Rattle.sim_base.specs.Names.{is_name};
ghost use Rattle.sim_base.specs.Reads.{Reads};
ghost use Rattle.toml.specs.Data.{as_array, get};
ghost use Rattle.toml.specs.View.{view};
ghost use Rattle.document_model.specs.Toml.{elements};
ghost use Rattle.document_model.specs.Project.{chip_items, chip_of, chips_after, chips_of, is_binary, is_repeated, most_chips, stem};

use crate::refusals::not_shaped;
use document_model::ChipFile;
use sim_base::{Fault, List, Name, OutOfMemory, Place, Text};
use std::alloc::Global;
use toml::Value;

/// How many chips a project may have.
const MOST_CHIPS: usize = 8;

/// Whether a chip has the name.
fn has_chip(chips: &[ChipFile], name: &str) -> bool
    ensures { result ≡ is_repeated name.now chips.now }
{
    chips
        .iter()
        .any(|chip| chip.name.bytes() == name.as_bytes())
}

/// A path without its ending `.wasm`.
fn stem_of(path: &str) -> Option<&str>
    ensures { MatchOption result (is_binary path.now ≡ false) (λ front. (is_binary path.now ≡ true) × (front.now ≡ stem path.now)) }
{
    path.strip_suffix(".wasm")
}

/// The file of a chip's pins, beside its binary.
fn json_beside(alloc: Global, stem: &str) -> Result<Text, OutOfMemory>
    ensures { IfOk result (λ path. path ≡ stem.now ++ codes ".json") }
{
    let mut path = String::from_str(alloc, stem)?;
    path.push_str(".json")?;
    Ok(Text::from_string(path))
}

/// A name that no chip before has.
fn new_name(chips: &[ChipFile], text: &str) -> Option<Name>
    ensures { result ≡ (if is_name text.now && not (is_repeated text.now chips.now) then Some text.now else None) }
{
    if has_chip(chips, text) {
        return None;
    }
    Name::read(text)
}

/// Chip `k`, counted from 1, after others.
fn read_chip(alloc: Global, chips: &[ChipFile], k: u32, value: &Value) -> Result<ChipFile, Fault>
    ensures { Reads (λ chip. chip) result (chip_of chips.now k (view value.now)) }
{
    let Some(name) = value.get("name").and_then(Value::as_str) else {
        return Err(not_shaped(Place::Chip(k)));
    };
    let Some(binary) = value.get("binary").and_then(Value::as_str) else {
        return Err(not_shaped(Place::Chip(k)));
    };
    let Some(name) = new_name(chips, name) else {
        return Err(not_shaped(Place::Chip(k)));
    };
    let Some(stem) = stem_of(binary) else {
        return Err(not_shaped(Place::Chip(k)));
    };
    let json = json_beside(alloc, stem)?;
    let binary = Text::from_str(alloc, binary)?;
    Ok(ChipFile { name, binary, json })
}

pub(crate) fn read_items(alloc: Global, values: &[Value]) -> Result<List<ChipFile>, Fault>
    requires { length values.now ≤ 8 }
    ensures { Reads (λ chips. chips) result (chips_after [] (map view values.now)) }
{
    let mut chips = List::new(alloc);
    for (i, value) in values.iter().enumerate() {
        chips.push(read_chip(alloc, chips.as_slice(), i as u32 + 1, value)?)?;
    }
    Ok(chips)
}

#[tactic(auto, using(crate::proofs::DocumentLemmas::elements_view))]
fn array_in(value: &Value) -> Option<&[Value]>
    ensures { option_map (λ items. map view items.now) result ≡ option_map elements (as_array (view value.now)) }
{
    match value.as_array() {
        Some(items) => Some(items.as_slice()),
        None => None,
    }
}

/// The items of the array `chip`, none where it is absent.
fn items_of(document: &Value) -> Option<&[Value]>
    ensures { option_map (λ items. map view items.now) result ≡ chip_items (get (codes "chip") (view document.now)) }
{
    match document.get("chip") {
        Some(chips) => array_in(chips),
        None => Some(&[]),
    }
}

pub(crate) fn read_chips(alloc: Global, document: &Value) -> Result<List<ChipFile>, Fault>
    ensures { Reads (λ chips. chips) result (chips_of (view document.now)) }
{
    let Some(items) = items_of(document) else {
        return Err(not_shaped(Place::Whole));
    };
    if items.len() > MOST_CHIPS {
        return Err(not_shaped(Place::Whole));
    }
    read_items(alloc, items)
}
