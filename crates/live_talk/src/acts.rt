//! Lines of a script.
ghost use Rattle.std.specs.Prelude.{◌≡◌, ◌<◌, ◌≤◌, IfOk, Some, length};
ghost use Rattle.board_build.specs.Parts.{is_button};
ghost use Rattle.live_request.specs.Views.{viewed, act_of};
ghost use Rattle.live_model.specs.Standing.{greatest_by, input_of};

use crate::names::place_of;
use board_build::{PlanKind, PlanPart};
use live_request::Act;
use part_catalog::{Kind, greatest_value};
use sim_base::Input;
use sim_refusals::numbers::{REQUEST_PART, REQUEST_PAST, REQUEST_VALUE};

fn is_button(kind: Kind) -> bool
    ensures { result ≡ is_button kind }
{
    kind == Kind::Pushbutton
}

/// The greatest value that a part of this kind takes by this action, if it has it.
fn greatest_by(press: bool, kind: PlanKind) -> Option<u16>
    ensures { result ≡ greatest_by press (Some kind) }
{
    match kind {
        PlanKind::Stock(kind) if !press || is_button(kind) => greatest_value(kind),
        _ => None,
    }
}

/// The value that a line gives in a cycle of its own, or in this one, or the number of the first rule that it breaks.
pub fn input_of(parts: &[PlanPart], cycle: u64, act: Act<'_>) -> Result<Input, u8>
    requires { length parts.now ≤ 64 }
    ensures gives { viewed (λ x. x) result ≡ input_of parts.now cycle (act_of act.entry) }
    ensures fits { IfOk result (λ x. (cycle ≤ x.cycle) × (x.part < length parts.now)) }
{
    let Some(part) = place_of(parts, act.part) else {
        return Err(REQUEST_PART);
    };
    let Some(greatest) = greatest_by(act.press, parts[part].kind) else {
        return Err(REQUEST_PART);
    };
    if act.value > u64::from(greatest) {
        return Err(REQUEST_VALUE);
    }
    let at = act.cycle.unwrap_or(cycle);
    if at < cycle {
        return Err(REQUEST_PAST);
    }
    Ok(Input {
        cycle: at,
        part: part as u8,
        value: act.value as u16,
    })
}
