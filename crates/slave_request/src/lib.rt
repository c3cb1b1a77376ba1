//! What a serial slave requests in a cycle, and what its machine of one step a cycle is.
//! An engine is a machine of one step a cycle on what its lines read.
#![tactic(auto)]

mod request;

pub use request::EngineRequest;
