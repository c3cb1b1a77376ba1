//! A copy of what joins the parts of a board.
ghost use Rattle.std.specs.Prelude.{◌≡◌, IfOk};

use sim_base::{List, OutOfMemory, Wiring};
use std::alloc::Global;

fn copied_numbers(alloc: Global, numbers: &List<u16>) -> Result<List<u16>, OutOfMemory>
    ensures { IfOk result (λ l. l ≡ numbers.now) }
{
    Ok(List::from_vec(Vec::from_slice(alloc, numbers.as_slice())?))
}

fn copied_pairs(alloc: Global, pairs: &List<(u16, u16)>) -> Result<List<(u16, u16)>, OutOfMemory>
    ensures { IfOk result (λ l. l ≡ pairs.now) }
{
    Ok(List::from_vec(Vec::from_slice(alloc, pairs.as_slice())?))
}

fn copied_flags(alloc: Global, flags: &List<bool>) -> Result<List<bool>, OutOfMemory>
    ensures { IfOk result (λ l. l ≡ flags.now) }
{
    Ok(List::from_vec(Vec::from_slice(alloc, flags.as_slice())?))
}

pub(crate) fn copied(alloc: Global, wiring: &Wiring) -> Result<Wiring, OutOfMemory>
    ensures { IfOk result (λ w. w ≡ wiring.now) }
{
    Ok(Wiring {
        nets: wiring.nets,
        net_of: copied_numbers(alloc, &wiring.net_of)?,
        contacts: copied_pairs(alloc, &wiring.contacts)?,
        resistors: copied_pairs(alloc, &wiring.resistors)?,
        first_pin: copied_numbers(alloc, &wiring.first_pin)?,
        chip: copied_flags(alloc, &wiring.chip)?,
    })
}
