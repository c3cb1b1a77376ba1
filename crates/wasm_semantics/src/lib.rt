//! What running a WebAssembly module means, as definitions: evaluation with fuel on nested code, and the host that
//! its imports call (core specification, "Execution").
#![tactic(auto)]

mod host;

pub use host::Host;
