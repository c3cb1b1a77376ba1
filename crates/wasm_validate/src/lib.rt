//! Modules validated (WebAssembly core specification, "Validation"), with the limits of the profile.
//! `validate` answers Ok exactly for a module that keeps all rules; it refuses others with the first rule
//! that fails, 70 ValidIndex to 74 ValidForm and 77 ChipInit to 79 ValidLimit, at its place.
//! It may answer out of memory.
#![tactic(auto)]

mod bodies;
mod collecting;
mod constants;
mod forms;
mod import_text;
mod indexes;
mod init;
mod rules;
mod space;
mod valid;
mod validating;

pub use bodies::locals;
pub use collecting::spaces;
pub use import_text::{ImportKind, ImportText};
pub use space::Space;
pub use valid::Valid;
pub use validating::validate;
