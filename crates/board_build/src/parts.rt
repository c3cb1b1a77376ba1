//! The parts of the plan.
ghost use Rattle.std.specs.Prelude.{◌≡◌, ◌≤◌, length, IfOk, List, ℕ};
ghost use Rattle.std.specs.List.{zip};
ghost use Rattle.sim_base.specs.Reads.{Reads};
ghost use Rattle.document_model.specs.Reading.{each_from};
ghost use Rattle.board_build.specs.Parts.{settings_in, part_in_plan};

use crate::plan::{PlanKind, PlanPart};
use crate::refusals::refused;
use document_model::PartText;
use part_catalog::{Settings, settings_of};
use sim_base::{Fault, List, OutOfMemory, Place, Text};
use sim_refusals::numbers::ATTR_VALUE;
use std::alloc::Global;

fn settings_in(kind: PlanKind, attrs: &List<(Text, Text)>) -> Option<Settings>
    ensures { result ≡ settings_in kind attrs.now }
{
    match kind {
        PlanKind::Stock(kind) => settings_of(kind, attrs),
        PlanKind::Chip(_) => Some(Settings {
            number: 0,
            choice: 0,
        }),
    }
}

/// The same attributes once more.
pub fn copied(alloc: Global, attrs: &[(Text, Text)]) -> Result<List<(Text, Text)>, OutOfMemory>
    ensures { IfOk result (λ copy. copy ≡ attrs.now) }
{
    let mut copy = List::new(alloc);
    for (name, value) in attrs {
        let name = Text::from_str(alloc, name.as_str())?;
        let value = Text::from_str(alloc, value.as_str())?;
        copy.push((name, value))?;
    }
    Ok(copy)
}

fn part_in_plan(alloc: Global, k: u32, kind: PlanKind, part: &PartText) -> Result<PlanPart, Fault>
    ensures { Reads (λ planned. planned) result (part_in_plan k (kind, part.now)) }
{
    let settings = match settings_in(kind, &part.attrs) {
        Some(settings) => settings,
        None => return Err(refused(ATTR_VALUE, Place::Part(k))),
    };
    let attrs = copied(alloc, part.attrs.as_slice())?;
    Ok(PlanPart {
        id: part.id.copy(),
        kind,
        settings,
        attrs,
    })
}

/// The parts with what their attributes set. Refuses with 47 AttrValue.
pub(crate) fn parts_in_plan(
    alloc: Global,
    kinds: &[PlanKind],
    parts: &[PartText],
) -> Result<List<PlanPart>, Fault>
    requires few { length parts.now ≤ 64 }
    requires same { length kinds.now ≡ length parts.now }
    ensures { Reads (λ planned. planned) result (each_from part_in_plan 1 (zip kinds.now parts.now)) }
{
    let mut planned = List::new(alloc);
    for (i, part) in parts.iter().enumerate() {
        planned.push(part_in_plan(alloc, i as u32 + 1, kinds[i], part)?)?;
    }
    Ok(planned)
}
