//! A conversation with a live board: its board is run in legs, whose rows go into a wave and whose bytes are kept, and what is
//! said goes to Serial.
//! Only `Sent::new` takes memory, and `give` for a value; another call fails only if a write does.
#![tactic(auto)]

mod leg;
mod sent;
mod talk;

pub use sent::{MOST_SENT, Sent};
pub use talk::{
    Talk, advance, begin, begin_leg, close, flush, give, run_on, run_to, say, say_sent, wave_length,
};
