//! What names of a request mean on a board.
ghost use Rattle.std.specs.Prelude.{◌≡◌, ◌<◌, IfSome, length, map};
ghost use Rattle.vcd_text.specs.Variables.{source_of, variables_of};
ghost use Rattle.board_build.specs.declared.plan.PlanPart.{PlanPart};
ghost use Rattle.board_build.specs.Parts.{place_of};
ghost use Rattle.live_request.specs.Views.{viewed};
ghost use Rattle.live_model.specs.Leg.{source_or};

use board_build::PlanPart;
use sim_refusals::numbers::REQUEST_PIN;
use vcd_text::{Source, Variable};

/// What the first variable of this name shows, or 103 RequestPin.
pub fn variable(variables: &[Variable], name: &[u8]) -> Result<Source, u8>
    ensures { viewed source_of result ≡ source_or (variables_of variables.now) name.now }
{
    for variable in variables {
        if variable.name.as_bytes() == name {
            return Ok(variable.shows);
        }
    }
    Err(REQUEST_PIN)
}

/// The place of the first part with this id.
pub(crate) fn place_of(parts: &[PlanPart], id: &[u8]) -> Option<usize>
    ensures place { result ≡ place_of (map (λ (p : PlanPart). p.id) parts.now) id.now }
    ensures within { IfSome result (λ place. place < length parts.now) }
{
    for (i, part) in parts.iter().enumerate() {
        if id == part.id.bytes() {
            return Some(i);
        }
    }
    None
}
