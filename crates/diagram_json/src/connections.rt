//! The connections of a diagram.
ghost use Rattle.std.specs.Prelude.{◌≡◌, ◌++◌, ◌≤◌, map, length, OnOk};
ghost use Rattle.std.specs.Option.{option_to_list};
ghost use Rattle.sim_base.specs.Reads.{Reads};
ghost use Rattle.serde_json.specs.View.{view};
ghost use Rattle.document_model.specs.Diagram.{end_of, is_outside, wire_between, wire_of, wires_in};

use crate::refusals::not_shaped;
use document_model::Wire;
use serde_json::Value;
use sim_base::{Fault, List, Name, OutOfMemory, Place};
use std::alloc::Global;

/// The id and the pin of `part:pin`.
fn read_end(text: &str) -> Option<(Name, Name)>
    ensures { result ≡ end_of text.now }
{
    let (part, pin) = text.split_once(':')?;
    let part = Name::read(part)?;
    let pin = Name::read(pin)?;
    Some((part, pin))
}

/// Whether an end is outside the board, as `$serialMonitor:RX` is.
fn is_outside_board(text: &str) -> bool
    ensures { result ≡ is_outside text.now }
{
    let bytes = text.as_bytes();
    !bytes.is_empty() && bytes[0] == b'$'
}

fn connect(k: u32, from: &str, to: &str) -> Result<Wire, Fault>
    ensures { Reads (λ wire. wire) result (wire_between k from.now to.now) }
{
    let from = match read_end(from) {
        Some(from) => from,
        None => return Err(not_shaped(Place::Connection(k))),
    };
    let to = match read_end(to) {
        Some(to) => to,
        None => return Err(not_shaped(Place::Connection(k))),
    };
    Ok(Wire {
        from,
        to,
        number: k,
    })
}

/// Connection `k`, counted from 1; None where it is passed over.
fn read_connection(k: u32, value: &Value) -> Result<Option<Wire>, Fault>
    ensures { Reads (λ wire. wire) result (wire_of k (view value.now)) }
{
    let from = match value.get(0).and_then(Value::as_str) {
        Some(from) => from,
        None => return Err(not_shaped(Place::Connection(k))),
    };
    let to = match value.get(1).and_then(Value::as_str) {
        Some(to) => to,
        None => return Err(not_shaped(Place::Connection(k))),
    };
    if is_outside_board(from) || is_outside_board(to) {
        return Ok(None);
    }
    Ok(Some(connect(k, from, to)?))
}

fn keep(wires: &mut List<Wire>, wire: Option<Wire>) -> Result<(), OutOfMemory>
    ensures { OnOk result (wires.new ≡ wires.old ++ option_to_list wire) }
{
    match wire {
        Some(wire) => wires.push(wire),
        None => Ok(()),
    }
}

pub(crate) fn read_connections(alloc: Global, values: &[Value]) -> Result<List<Wire>, Fault>
    requires { length values.now ≤ 512 }
    ensures { Reads (λ wires. wires) result (wires_in (map view values.now)) }
{
    let mut wires = List::new(alloc);
    for (i, value) in values.iter().enumerate() {
        keep(&mut wires, read_connection(i as u32 + 1, value)?)?;
    }
    Ok(wires)
}
