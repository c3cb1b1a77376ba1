//! The parts of a diagram.
ghost use Rattle.std.specs.Prelude.{◌≡◌, ◌++◌, ◌≤◌, map, length, codes, string_bytes, IfOk, OnOk, Some, None, option_map, if◌then◌else◌};
ghost use Rattle.std.specs.Option.{option_to_list};
ghost use Rattle.std.specs.List.{list_all};
ghost use Rattle.sim_base.specs.Reads.{Reads};
ghost use Rattle.serde_json.specs.View.{view, number_view, members_view};
ghost use Rattle.serde_json.specs.Find.{get};
ghost use Rattle.document_model.specs.Reading.{each_from};
ghost use Rattle.document_model.specs.Diagram.{attrs_in, attrs_of, is_id, is_id_byte, part_of, value_text};
ghost use Rattle.document_model.specs.Json.{number_text};

use crate::refusals::{not_shaped, over_limit};
use document_model::PartText;
use serde_json::{Map, Number, Value};
use sim_base::{Fault, List, Name, OutOfMemory, Place, Text};
use std::alloc::Global;

fn are_id_bytes(bytes: &[u8]) -> bool
    ensures { result ≡ list_all is_id_byte bytes.now }
{
    bytes.iter().all(|c| c.is_ascii_digit()
        || c.is_ascii_uppercase()
        || c.is_ascii_lowercase()
        || *c == b'_'
        || *c == b'-')
}

fn is_id_text(id: &str) -> bool
    ensures { result ≡ is_id id.now }
{
    if id.is_empty() || id.len() > 64 {
        return false;
    }
    are_id_bytes(id.as_bytes())
}

/// The text as an id, which is a name too; None exactly where it is none: 1 to 64 ASCII letters,
/// digits, `_` or `-`.
pub fn read_id(id: &str) -> Option<Name>
    ensures { result ≡ (if is_id id.now then Some id.now else None) }
{
    if is_id_text(id) { Name::read(id) } else { None }
}

fn number_as_text(alloc: Global, number: &Number) -> Result<Option<Text>, OutOfMemory>
    ensures { IfOk result (λ text. text ≡ number_text (number_view number.now)) }
{
    match number.as_i128() {
        Some(n) => {
            let mut digits = itoa::Buffer::new();
            Ok(Some(Text::from_str(alloc, digits.format(n))?))
        }
        None => Ok(None),
    }
}

/// What an attribute's value counts as.
fn value_as_text(alloc: Global, value: &Value) -> Result<Option<Text>, OutOfMemory>
    ensures { IfOk result (λ text. text ≡ value_text (view value.now)) }
{
    match value {
        Value::String(text) => Ok(Some(Text::from_str(alloc, text.as_str())?)),
        Value::Number(number) => number_as_text(alloc, number),
        _ => Ok(None),
    }
}

fn push_attr(
    alloc: Global,
    attrs: &mut List<(Text, Text)>,
    key: &String,
    value: &Value,
) -> Result<(), OutOfMemory>
    ensures { OnOk result (attrs.new ≡ attrs.old ++ option_to_list (option_map (λ text. (string_bytes key.now, text)) (value_text (view value.now)))) }
{
    match value_as_text(alloc, value)? {
        Some(text) => attrs.push((Text::from_str(alloc, key.as_str())?, text)),
        None => Ok(()),
    }
}

fn read_attrs(
    alloc: Global,
    members: &Map<String, Value>,
) -> Result<List<(Text, Text)>, OutOfMemory>
    ensures { IfOk result (λ attrs. attrs ≡ attrs_of (members_view members.now.entries)) }
{
    let mut attrs = List::new(alloc);
    for (key, value) in members.iter() {
        push_attr(alloc, &mut attrs, key, value)?;
    }
    Ok(attrs)
}

/// The attributes of a part, none where it has no member `attrs`.
fn attrs_at(alloc: Global, part: &Value) -> Result<Option<List<(Text, Text)>>, OutOfMemory>
    ensures { IfOk result (λ attrs. attrs ≡ attrs_in (get (codes "attrs") (view part.now))) }
{
    match part.get("attrs") {
        None => Ok(Some(List::new(alloc))),
        Some(attrs) => match attrs.as_object() {
            Some(members) => Ok(Some(read_attrs(alloc, members)?)),
            None => Ok(None),
        },
    }
}

/// Part `k`, counted from 1.
fn read_part(alloc: Global, k: u32, value: &Value) -> Result<PartText, Fault>
    ensures { Reads (λ part. part) result (part_of k (view value.now)) }
{
    let kind = match value.get("type").and_then(Value::as_str) {
        Some(kind) => kind,
        None => return Err(not_shaped(Place::Part(k))),
    };
    let id = match value.get("id").and_then(Value::as_str) {
        Some(id) => id,
        None => return Err(not_shaped(Place::Part(k))),
    };
    let attrs = match attrs_at(alloc, value)? {
        Some(attrs) => attrs,
        None => return Err(not_shaped(Place::Part(k))),
    };
    let id = match read_id(id) {
        Some(id) => id,
        None => return Err(over_limit(Place::Part(k))),
    };
    let kind = Text::from_str(alloc, kind)?;
    Ok(PartText { kind, id, attrs })
}

pub(crate) fn read_parts(alloc: Global, values: &[Value]) -> Result<List<PartText>, Fault>
    requires { length values.now ≤ 64 }
    ensures { Reads (λ parts. parts) result (each_from part_of 1 (map view values.now)) }
{
    let mut parts = List::new(alloc);
    for (i, value) in values.iter().enumerate() {
        parts.push(read_part(alloc, i as u32 + 1, value)?)?;
    }
    Ok(parts)
}
