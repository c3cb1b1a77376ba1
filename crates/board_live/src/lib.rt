//! A board that is run in pieces and is given values between them, as by somebody who plays with it.
//! After any calls the parts, rows and bytes are those of the board that is stepped cycle by cycle from cycle 0
//! with all the values that were given: what a run with a script of these values hands out. Only `give` takes
//! memory; a run fails only if a write does.
#![tactic(auto)]

mod live;

pub use live::LiveBoard;
