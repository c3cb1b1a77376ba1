//! Refusals of a board.
ghost use Rattle.std.specs.Prelude.{◌≡◌};
ghost use Rattle.document_model.specs.Reading.{refusal};

use sim_base::{Fault, Place, Refusal};

pub(crate) fn refused(number: u8, place: Place) -> Fault
    ensures { result ≡ Fault.Refused (refusal number place) }
{
    Fault::Refused(Refusal { number, place })
}
