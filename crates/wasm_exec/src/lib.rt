//! Instances of WebAssembly modules: instantiation, and calls of their functions (core specification, "Module
//! Instances", "Instantiation" and "Invocation").
//! A call leaves what evaluation on the same budget leaves: a value or a trap, memory, globals and the host; it
//! takes no memory. An instance takes all that its calls use when it is made, and may answer out of memory then.
#![tactic(auto)]

mod bodies;
mod calling;
mod compiling;
mod first;
mod instance;
mod made;
mod numbers;
mod parts;
mod table;
mod values;

pub use instance::Instance;
