//! A player: what was recorded of a chip's drives, played on a board in the chip's place.
//! A `Player` is exactly the player of its rows: what it drives in each cycle, and when it is due. No call takes
//! memory, and none fails.
#![tactic(auto)]

mod player;
mod rows;

pub use player::Player;
