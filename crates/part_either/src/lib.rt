//! A part of one of two kinds, and so, nested, of one of many: proved once for all kinds, and the same for
//! behaviours.
//! The same of behaviours. No call takes memory, and none fails.
#![tactic(auto)]

mod either;

pub use either::Either;
