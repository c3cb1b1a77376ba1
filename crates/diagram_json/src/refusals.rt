//! The refusals of a diagram, and that of a text that is no JSON.
ghost use Rattle.std.specs.Prelude.{◌≡◌};
ghost use Rattle.sim_refusals.specs.Refusals.{DiagramLimit, DiagramShape};
ghost use Rattle.document_model.specs.Reading.{refusal};

use sim_base::{Fault, Place, Refusal};
use sim_refusals::numbers::{DIAGRAM_LIMIT, DIAGRAM_SHAPE};

pub(crate) fn not_json(number: u8) -> Fault
    ensures { result ≡ Fault.Refused (refusal number Place.Whole) }
{
    Fault::Refused(Refusal {
        number,
        place: Place::Whole,
    })
}

/// 41 DiagramShape.
pub(crate) fn not_shaped(place: Place) -> Fault
    ensures { result ≡ Fault.Refused (refusal DiagramShape place) }
{
    Fault::Refused(Refusal {
        number: DIAGRAM_SHAPE,
        place,
    })
}

/// 48 DiagramLimit.
pub(crate) fn over_limit(place: Place) -> Fault
    ensures { result ≡ Fault.Refused (refusal DiagramLimit place) }
{
    Fault::Refused(Refusal {
        number: DIAGRAM_LIMIT,
        place,
    })
}
