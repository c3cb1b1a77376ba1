//! The values that a script gives.
ghost use Rattle.std.specs.Prelude.{◌≡◌, ◌≤◌, length, ℕ, Some, None, if◌then◌else◌};
ghost use Rattle.sim_base.specs.Reads.{Reads};
ghost use Rattle.document_model.specs.Reading.{each_from};
ghost use Rattle.board_build.specs.Ids.{ids_in};
ghost use Rattle.board_build.specs.Parts.{takes, is_button, input_for, input_of, place_of};

use crate::ids::place_of;
use crate::plan::PlanKind;
use crate::refusals::refused;
use indexmap::IndexSet;
use input_texts::ScriptRow;
use part_catalog::{Kind, greatest_value};
use sim_base::{Fault, Input, List, Place};
use sim_refusals::numbers::SCRIPT_PART;
use std::alloc::Global;

fn is_button(kind: Kind) -> bool
    ensures { result ≡ is_button kind }
{
    kind == Kind::Pushbutton
}

/// The value, where a part of this kind takes it.
fn taken(press: bool, value: u32, kind: Option<PlanKind>) -> Option<u16>
    ensures { result ≡ (if takes press value kind then Some value else None) }
{
    let kind = match kind {
        Some(PlanKind::Stock(kind)) => kind,
        _ => return None,
    };
    if press && !is_button(kind) {
        return None;
    }
    match greatest_value(kind) {
        Some(greatest) if value <= u32::from(greatest) => Some(value as u16),
        _ => None,
    }
}

fn input_of(ids: &IndexSet<&[u8]>, kinds: &[PlanKind], row: &ScriptRow) -> Result<Input, Fault>
    requires { length kinds.now ≤ 64 }
    ensures { Reads (λ input. input) result (input_for kinds.now row.now (place_of (ids_in ids.now) row.now.part)) }
{
    let part = match place_of(ids, &row.part) {
        Some(part) => part,
        None => return Err(refused(SCRIPT_PART, Place::Line(row.line))),
    };
    match taken(row.press, row.value, kinds.get(part).copied()) {
        Some(value) => Ok(Input {
            cycle: u64::from(row.cycle),
            part: part as u8,
            value,
        }),
        None => Err(refused(SCRIPT_PART, Place::Line(row.line))),
    }
}

/// The script's values for parts by their numbers. Refuses with 83 ScriptPart.
pub(crate) fn inputs_of(
    alloc: Global,
    ids: &IndexSet<&[u8]>,
    kinds: &[PlanKind],
    rows: &[ScriptRow],
) -> Result<List<Input>, Fault>
    requires { length kinds.now ≤ 64 }
    ensures { Reads (λ inputs. inputs) result (each_from (λ k. input_of (ids_in ids.now) kinds.now) 1 rows.now) }
{
    let mut inputs = List::new(alloc);
    for row in rows {
        inputs.push(input_of(ids, kinds, row)?)?;
    }
    Ok(inputs)
}
