//! What a chip's module and its host say to each other: the functions that it may import (docs/CHIPS.md),
//! and words and texts in its memory.
//! Each call is exact: a module is refused at the first import that the table has not, and a reading traps exactly where the
//! memory has no such word or text. Only `check_imports` takes memory.
#![tactic(auto)]

mod host_name;
mod imports;
mod output_name;
mod reading;

pub use host_name::HostName;
pub use imports::{ImportMap, check_imports};
pub use output_name::OutputName;
pub use reading::{read_string, read_word};
