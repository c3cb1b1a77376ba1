//! A part of any kind.

use crate::behaviour::AnyBehaviour;
use avr_mcu::Mcu;
use chip_host::Chip;
use part_either::Either;
use part_reactive::Reactive;

/// A part of a board, of one of the kinds that can be simulated: an Uno, or one that does nothing by itself, or a chip. It is a
/// part as each of them is, and one more kind is one more `Either`, here and in `specs/AnyPart.antt`.
pub type AnyPart = Either<Mcu, Either<Reactive<AnyBehaviour>, Chip>>;
