//! A diagram as a JSON document.
ghost use Rattle.std.specs.Prelude.{◌≡◌, ◌≤◌, map, length, IfOk, option_map};
ghost use Rattle.sim_base.specs.Reads.{Reads};
ghost use Rattle.serde_json.specs.View.{view};
ghost use Rattle.document_model.specs.Json.{array_at, json_document};
ghost use Rattle.document_model.specs.Diagram.{diagram_of, diagram_text, has_version_1, parts_of, wires_of};

use crate::connections::read_connections;
use crate::parts::read_parts;
use crate::refusals::{not_json, not_shaped, over_limit};
use document_model::{Diagram, PartText, Wire};
use serde_json::Value;
use sim_base::{Fault, List, Place};
use sim_refusals::numbers::JSON_TEXT;
use std::alloc::Global;

/// The document that a JSON text is. Refuses with this number, at Whole, a text that is none.
pub fn read_json(alloc: Global, number: u8, bytes: &[u8]) -> Result<Value, Fault>
    ensures { Reads view result (json_document number bytes.now) }
{
    match Value::from_slice(alloc, bytes) {
        Ok(document) => Ok(document),
        Err(error) => if error.is_memory() {
            Err(Fault::OutOfMemory)
        } else {
            Err(not_json(number))
        },
    }
}

fn is_version_1(document: &Value) -> bool
    ensures { result ≡ has_version_1 (view document.now) }
{
    document.get("version").and_then(Value::as_u64) == Some(1)
}

/// The items of a member that is an array.
#[tactic(auto, using(crate::proofs::DocumentLemmas::elements_view))]
pub fn array_of<'a>(document: &'a Value, key: &str) -> Option<&'a [Value]>
    ensures { option_map (λ items. map view items.now) result ≡ array_at key.now (view document.now) }
{
    let items = document.get(key).and_then(Value::as_array)?;
    Some(items.as_slice())
}

fn few_parts(alloc: Global, items: &[Value]) -> Result<List<PartText>, Fault>
    ensures { Reads (λ parts. parts) result (parts_of (map view items.now)) }
{
    if items.len() > 64 {
        return Err(over_limit(Place::Whole));
    }
    read_parts(alloc, items)
}

fn few_wires(alloc: Global, items: &[Value]) -> Result<List<Wire>, Fault>
    ensures { Reads (λ wires. wires) result (wires_of (map view items.now)) }
{
    if items.len() > 512 {
        return Err(over_limit(Place::Whole));
    }
    read_connections(alloc, items)
}

fn diagram(alloc: Global, document: &Value) -> Result<Diagram, Fault>
    ensures { Reads (λ diagram. diagram) result (diagram_of (view document.now)) }
{
    if !is_version_1(document) {
        return Err(not_shaped(Place::Whole));
    }
    let items = match array_of(document, "parts") {
        Some(items) => items,
        None => return Err(not_shaped(Place::Whole)),
    };
    let connections = match array_of(document, "connections") {
        Some(connections) => connections,
        None => return Err(not_shaped(Place::Whole)),
    };
    let parts = few_parts(alloc, items)?;
    let wires = few_wires(alloc, connections)?;
    Ok(Diagram { parts, wires })
}

/// The parts and wires of a diagram as Wokwi's editor writes it. Connections that lead to `$serialMonitor` and the
/// like are passed over, and so are all members that no rule names.
/// Refuses with 40 JsonText at Whole; 41 DiagramShape at Whole, or at the Part or the Connection that fails; and
/// 48 DiagramLimit at Whole, or at the Part whose id is ill-formed.
pub fn read_diagram(alloc: Global, bytes: &[u8]) -> Result<Diagram, Fault>
    ensures { Reads (λ diagram. diagram) result (diagram_text bytes.now) }
{
    let document = read_json(alloc, JSON_TEXT, bytes)?;
    diagram(alloc, &document)
}
