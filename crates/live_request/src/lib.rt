//! The reader of requests to a live board, a line each.
//! It answers what a line asks for, or the number of the first rule that its form breaks (`specs/Request.antt`): 100
//! RequestUnknown, 101 RequestWords or 102 RequestNumber. Whoever has the board judges names and values. No call takes memory.
#![tactic(auto)]

mod addresses;
mod condition;
mod number;
mod request;
mod words;

pub use addresses::Addresses;
pub use condition::{Condition, Conditions};
pub use request::{Act, Bytes, Request, read_request};
