//! A part, or a player in a chip's place.

use any_part::AnyPart;
use part_either::Either;
use trace_run::Player;

/// A part of a board that is simulated, or what plays a chip's drives.
pub type PlayedPart = Either<AnyPart, Player>;
