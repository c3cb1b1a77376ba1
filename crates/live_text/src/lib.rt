//! The line of an answer of a live board: `ok CYCLE COUNT WORDS..`, or `no CYCLE NUMBER NAME`.
//! Each call is exact (`specs/Answer.antt`). None takes memory, and none fails.
#![tactic(auto)]

mod answer;
mod line;

pub use answer::{OUT_OF_MEMORY, no_line, ok_line};
pub use line::Line;
