//! What all crates share: drives and levels, the type of a refusal with its place, lists, the flash image, the
//! environment as the trait `Bench`, and the wiring and script values of a board.
//! Each call is exact; one that grows a list or makes an image may answer that memory ran out.
#![tactic(auto)]

mod bench;
mod display;
mod fault;
mod flash;
mod limits;
mod list;
mod mem_bench;
mod name;
mod signal;
mod steps;
mod text;
mod watcher;
mod wiring;

pub use bench::{Bench, LineEnd, Port, ReadEnd, WriteEnd};
pub use display::Display;
pub use fault::{Fault, OutOfMemory, Place, Refusal};
pub use flash::Flash;
pub use limits::{LONGEST_RUN, MOST_CYCLES};
pub use list::List;
pub use mem_bench::MemBench;
pub use name::Name;
pub use signal::{Drive, Level, reads_one};
pub use steps::Steps;
pub use text::Text;
pub use watcher::Watcher;
pub use wiring::{Input, Wiring};
