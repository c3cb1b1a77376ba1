//! The chips of a plan alone.
ghost use Rattle.std.specs.Prelude.{◌≡◌, length, map, true, IfOk};
ghost use Rattle.std.specs.List.{All};
ghost use Rattle.board_model.specs.Fresh.{AreFresh};
ghost use Rattle.board_build.specs.IsPlan.{IsPlan, can_run};
ghost use Rattle.chip_module.specs.Sources.{HasFewPins, pins_of};
ghost use Rattle.any_part.specs.AnyPart.{any, state_of, cycle_of, wakes_of};
ghost use Rattle.cli_twin.specs.Chips.{Started, chip_start, chip_starts};

use any_part::{AnyPart, new_chip};
use board_build::{Plan, PlanKind, PlanPart};
use chip_module::ChipSource;
use sim_base::{List, OutOfMemory};
use std::alloc::Global;

/// The chip that a part is, if it is one.
fn chip_of(
    alloc: Global,
    part: &PlanPart,
    chips: &[ChipSource],
    budget: u32,
) -> Result<Option<AnyPart>, OutOfMemory>
    requires ready { can_run (length chips.now) part.now.kind ≡ true }
    requires few { All HasFewPins chips.now }
    ensures { IfOk result (Started (chip_start budget chips.now part.now.attrs part.now.kind)) }
{
    match part.kind {
        PlanKind::Stock(_) => Ok(None),
        PlanKind::Chip(chip) => {
            let chip = new_chip(alloc, &chips[chip as usize], part.attrs.as_slice(), budget)?;
            Ok(Some(chip))
        }
    }
}

/// The chips of a plan in the order of its parts, each at cycle 0 in its start state.
pub(crate) fn load_chips(
    alloc: Global,
    plan: &Plan,
    chips: &[ChipSource],
    budget: u32,
) -> Result<List<AnyPart>, OutOfMemory>
    requires plan { IsPlan (pins_of chips.now) plan.now }
    requires few { All HasFewPins chips.now }
    ensures states { IfOk result (λ loaded. map state_of loaded ≡ chip_starts budget chips.now plan.now.parts) }
    ensures fresh { IfOk result (λ loaded. AreFresh any state_of cycle_of wakes_of loaded) }
{
    let mut loaded = List::new(alloc);
    for part in plan.parts.as_slice() {
        if let Some(chip) = chip_of(alloc, part, chips, budget)? {
            loaded.push(chip)?;
        }
    }
    Ok(loaded)
}
