//! Integers, their operations, and memories of WebAssembly (core specification, "Numerics" and "Memory Instructions").
//! Each call is exact, and traps exactly where the specification does; a trap changes nothing.
//! Only the making of a memory takes room, and may answer out of memory.
#![tactic(auto)]

mod bytes;
pub mod int32;
pub mod int64;
mod memory;
mod numeric;
mod trap;
mod value;

pub use memory::{MOST_PAGES, Memory, PAGE, effective};
pub use numeric::{binary, unary};
pub use trap::Trap;
pub use value::Value;
