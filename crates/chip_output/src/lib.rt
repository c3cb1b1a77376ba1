//! What a chip prints and draws: its console, its display, and the seven host calls on them (docs/CHIPS.md; the four on
//! files by WASI snapshot preview 1).
//! Each call is exact: what it answers, what it leaves of console, display and memory, and when it traps.
//! Only the making takes room, and may answer out of memory.
#![tactic(auto)]

mod calls;
mod console;
mod framebuffer;
mod memory;
mod output;

pub use output::Output;
