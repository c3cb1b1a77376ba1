//! Room that nets are made with.
ghost use Rattle.std.specs.Prelude.{◌≡◌, length, replicate, IfOk, vec_len, false};

use sim_base::{Drive, Level};
use std::alloc::{AllocError, Global};

/// So many levels, all Z.
pub(crate) fn all_z(alloc: Global, count: usize) -> Result<Vec<Level>, AllocError>
    ensures items { IfOk result (λ v. v.items ≡ replicate count Level.Z) }
    ensures len { IfOk result (λ v. vec_len v ≡ count) }
{
    vec![in alloc; Level::Z; count]
}

/// So many drives, all Z.
pub(crate) fn no_drives(alloc: Global, count: usize) -> Result<Vec<Drive>, AllocError>
    ensures items { IfOk result (λ v. v.items ≡ replicate count Drive.Z) }
    ensures len { IfOk result (λ v. vec_len v ≡ count) }
{
    vec![in alloc; Drive::Z; count]
}

/// So many flags, none set.
pub(crate) fn no_flags(alloc: Global, count: usize) -> Result<Vec<bool>, AllocError>
    ensures items { IfOk result (λ v. v.items ≡ replicate count false) }
    ensures len { IfOk result (λ v. vec_len v ≡ count) }
{
    vec![in alloc; false; count]
}

pub(crate) fn zeros(alloc: Global, count: usize) -> Result<Vec<u16>, AllocError>
    ensures { IfOk result (λ v. vec_len v ≡ count) }
{
    vec![in alloc; 0; count]
}
