//! The ids of the parts, in order.
ghost use Rattle.std.specs.Prelude.{◌≡◌, ◌≤◌, length, map, [], List, ℕ};
ghost use Rattle.std.specs.Borrow.{Bor};
ghost use Rattle.sim_base.specs.Reads.{Reads};
ghost use Rattle.indexmap.specs.IndexSet.{IndexSet, keys};
ghost use Rattle.board_build.specs.Parts.{ids_from, place_of};
ghost use Rattle.board_build.specs.Ids.{ids_in};

use crate::refusals::refused;
use document_model::PartText;
use indexmap::IndexSet;
use sim_base::{Fault, Name, Place};
use sim_refusals::numbers::ID_REPEATED;
use std::alloc::Global;

/// The ids with their places. Refuses with 43 IdRepeated at the later part.
pub(crate) fn ids_of_parts(alloc: Global, parts: &[PartText]) -> Result<IndexSet<&[u8]>, Fault>
    requires { length parts.now ≤ 64 }
    ensures { Reads ids_in result (ids_from [] 1 parts.now) }
{
    let mut ids = IndexSet::new(alloc);
    for (i, part) in parts.iter().enumerate() {
        if !ids.insert(part.id.bytes())? {
            return Err(refused(ID_REPEATED, Place::Part(i as u32 + 1)));
        }
    }
    Ok(ids)
}

/// The part with an id; None where there is none.
pub(crate) fn place_of(ids: &IndexSet<&[u8]>, id: &Name) -> Option<usize>
    ensures { result ≡ place_of (ids_in ids.now) id.now }
{
    ids.get_index_of(id.bytes())
}
