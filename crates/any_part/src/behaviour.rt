//! A behaviour of any kind.

use part_either::Either;
use part_oled::Oled;
use parts_basic::{Led, Passive};
use parts_display::{Lcd, Seven};
use parts_logic::{Gate, Shift595};

/// What a part that does nothing by itself does, of one of the kinds that there are. One more kind is one more `Either`, here and
/// in `specs/AnyBehaviour.antt`.
pub type AnyBehaviour = Either<
    Led,
    Either<Passive, Either<Gate, Either<Shift595, Either<Seven, Either<Lcd, Oled>>>>>,
>;
