//! The end of a part with a size.
ghost use Rattle.std.specs.Prelude.{◌≡◌, ◌-◌, ◌<◌, ◌≤◌, length, take, IfOk, IfErr, MatchResult};
ghost use Rattle.sim_base.specs.declared.fault.Fault.TheVariants as faults;
ghost use Rattle.sim_base.specs.declared.fault.Place.TheVariants as places;
ghost use Rattle.wasm_binary.specs.Lists.{short_number};
ghost use Rattle.wasm_binary.specs.Reads.{Took};

use crate::reader::{Reader, refused};
use sim_base::Fault;
use sim_refusals::numbers::{WASM_CUT, WASM_SECTION};

/// Passes over a part of that size whose content ended where `inner` stands.
/// Refuses with 63 where that is before the end that the size gives, and with 61 where the bytes end
/// there too and more is wanted behind the part.
pub fn close(reader: &mut Reader, inner: &Reader, size: u32, wanted: bool) -> Result<(), Fault>
    requires behind { reader.old.at ≤ inner.now.at }
    requires inside { inner.now.at - reader.old.at ≤ length reader.old.rest.now }
    ensures { MatchResult result
        (λ _. (size ≤ inner.now.at - reader.old.at) × Took reader.old reader.new (take (inner.now.at - reader.old.at) reader.old.rest.now))
        (λ e. (inner.now.at - reader.old.at < size) × (e ≡ faults.Refused (record { number = short_number wanted inner.now.rest.now; place = places.Byte inner.now.at }))) }
{
    let length = inner.at - reader.at;
    if length < size {
        return Err(refused(short(wanted, inner.rest), inner.at));
    }
    reader.skip(length as usize);
    Ok(())
}

fn short(wanted: bool, rest: &[u8]) -> u8
    ensures { result ≡ short_number wanted rest.now }
{
    match rest {
        [] if wanted => WASM_CUT,
        _ => WASM_SECTION,
    }
}
