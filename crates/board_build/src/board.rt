//! The rules of a board, one after the other.
ghost use Rattle.std.specs.Prelude.{◌≡◌, ◌≤◌, length, map, IfOk};
ghost use Rattle.std.specs.List.{All};
ghost use Rattle.sim_base.specs.Reads.{Reads};
ghost use Rattle.board_build.specs.Ids.{ids_in};
ghost use Rattle.board_build.specs.Pins.{IsShort};
ghost use Rattle.board_build.specs.Plan.{plan_in, plan_of};
ghost use Rattle.board_build.specs.IsPlan.{IsPlan};

use crate::ids::ids_of_parts;
use crate::inputs::inputs_of;
use crate::kinds::{few_chips, found_chips, kinds_of_parts, one_uno};
use crate::parts::parts_in_plan;
use crate::pins::{Board, starts, wires_on_board};
use crate::plan::{Plan, PlanKind};
use crate::wiring::wiring;
use document_model::{ChipPins, Diagram, Project};
use indexmap::IndexSet;
use input_texts::Script;
use sim_base::{Fault, List};
use std::alloc::Global;

fn plan_in(
    alloc: Global,
    diagram: &Diagram,
    pins: &[ChipPins],
    script: &Script,
    found: &[Option<PlanKind>],
    ids: &IndexSet<&[u8]>,
) -> Result<Plan, Fault>
    requires parts { length found.now ≡ length diagram.now.parts }
    requires few_parts { length diagram.now.parts ≤ 64 }
    requires short { All IsShort pins.now }
    ensures { Reads (λ plan. plan) result (plan_in diagram.now pins.now script.now found.now (ids_in ids.now)) }
{
    let (firsts, count) = starts(alloc, pins, found)?;
    let board = Board {
        pins,
        ids,
        kinds: found,
        firsts: firsts.as_slice(),
    };
    let wires = wires_on_board(alloc, &board, diagram.wires.as_slice())?;
    one_uno(found)?;
    let kinds = found_chips(alloc, found)?;
    let parts = parts_in_plan(alloc, kinds.as_slice(), diagram.parts.as_slice())?;
    few_chips(found)?;
    let inputs = inputs_of(alloc, ids, kinds.as_slice(), script.as_slice())?;
    Ok(Plan {
        parts,
        wiring: wiring(alloc, wires, firsts, count, found)?,
        inputs,
    })
}

/// The plan of a project, its diagram and its script, where `pins` has the pins of each chip.
/// Refuses with the first rule that fails over all its items: 42 TypeUnknown, 43 IdRepeated, 46
/// ChipMissing and 47 AttrValue at the Part, 44 PinUnknown at the Connection, 45 BoardCount at Whole
/// or the Part of a second Uno, 49 BoardLimit at the Part of the ninth chip, and 83 ScriptPart at the
/// Line.
pub fn build(
    alloc: Global,
    project: &Project,
    diagram: &Diagram,
    pins: &[ChipPins],
    script: &Script,
) -> Result<Plan, Fault>
    requires chips { length project.now.chips ≤ 8 }
    requires parts { length diagram.now.parts ≤ 64 }
    requires each { length pins.now ≡ length project.now.chips }
    requires pins { All IsShort pins.now }
    ensures built { Reads (λ plan. plan) result (plan_of project.now diagram.now pins.now script.now) }
    ensures plan { IfOk result (λ plan. IsPlan pins.now plan) }
    ensures cycles { IfOk result (λ plan. map (λ i. i.cycle) plan.inputs ≡ map (λ row. row.cycle) script.now) }
{
    let parts = diagram.parts.as_slice();
    let found = kinds_of_parts(alloc, project.chips.as_slice(), parts)?;
    let ids = ids_of_parts(alloc, parts)?;
    plan_in(alloc, diagram, pins, script, found.as_slice(), &ids)
}
