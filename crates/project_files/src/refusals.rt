//! The two refusals of a project file.
ghost use Rattle.std.specs.Prelude.{◌≡◌};
ghost use Rattle.sim_refusals.specs.Refusals.{TomlShape, TomlText};
ghost use Rattle.document_model.specs.Reading.{refusal};

use sim_base::{Fault, Place, Refusal};
use sim_refusals::numbers::{TOML_SHAPE, TOML_TEXT};

/// 30 TomlText.
pub(crate) fn not_toml() -> Fault
    ensures { result ≡ Fault.Refused (refusal TomlText Place.Whole) }
{
    Fault::Refused(Refusal {
        number: TOML_TEXT,
        place: Place::Whole,
    })
}

/// 31 TomlShape.
pub(crate) fn not_shaped(place: Place) -> Fault
    ensures { result ≡ Fault.Refused (refusal TomlShape place) }
{
    Fault::Refused(Refusal {
        number: TOML_SHAPE,
        place,
    })
}
