//! The refusals of a chip's file of pins, each of the whole.
ghost use Rattle.std.specs.Prelude.{◌≡◌};
ghost use Rattle.document_model.specs.Reading.{refusal};

use sim_base::{Fault, Place, Refusal};

pub(crate) fn refused(number: u8) -> Fault
    ensures { result ≡ Fault.Refused (refusal number Place.Whole) }
{
    Fault::Refused(Refusal {
        number,
        place: Place::Whole,
    })
}
