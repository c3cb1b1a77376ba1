//! A part of a board, or a player in a chip's place: what a board that plays a wave is made of.
//! It steps as the machine of its kind (`specs/Played.antt`), a player has no line in a report, and `load_played`
//! gives each part of a plan its start (`specs/Start.antt`). Only `load_played` takes memory.
#![tactic(auto)]

mod loading;
mod part;

pub use loading::load_played;
pub use part::PlayedPart;
