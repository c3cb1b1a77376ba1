//! What the parts are, and how many there may be of some.
ghost use Rattle.std.specs.Prelude.{◌≡◌, ◌≤◌, length, Option, ℕ};
ghost use Rattle.sim_base.specs.Reads.{Reads};
ghost use Rattle.document_model.specs.Reading.{each_from};
ghost use Rattle.board_build.specs.Parts.{chip_place, kind_of_part, is_uno, one_uno, found_chip, is_chip, few_chips};

use crate::plan::PlanKind;
use crate::refusals::refused;
use document_model::{ChipFile, PartText};
use part_catalog::{Kind, kind_of, kind_with};
use sim_base::{Fault, List, Place};
use sim_refusals::numbers::{BOARD_COUNT, BOARD_LIMIT, CHIP_MISSING, TYPE_UNKNOWN};
use std::alloc::Global;

fn chip_place(chips: &[ChipFile], name: &[u8]) -> Option<u8>
    requires { length chips.now ≤ 8 }
    ensures { result ≡ chip_place chips.now name.now }
{
    for i in 0..chips.len() {
        if name == chips[i].name.bytes() {
            return Some(i as u8);
        }
    }
    None
}

fn kind_of_part(chips: &[ChipFile], k: u32, part: &PartText) -> Result<Option<PlanKind>, Fault>
    requires { length chips.now ≤ 8 }
    ensures { Reads (λ kind. kind) result (kind_of_part chips.now k part.now) }
{
    let text = part.kind.as_str();
    if let Some(kind) = kind_of(text) {
        return Ok(Some(PlanKind::Stock(kind_with(kind, &part.attrs))));
    }
    match text.as_bytes().strip_prefix(b"chip-") {
        Some(name) => match chip_place(chips, name) {
            Some(chip) => Ok(Some(PlanKind::Chip(chip))),
            None => Ok(None),
        },
        None => Err(refused(TYPE_UNKNOWN, Place::Part(k))),
    }
}

/// What each part is, None for a chip that the project lacks. Refuses with 42 TypeUnknown.
pub(crate) fn kinds_of_parts(
    alloc: Global,
    chips: &[ChipFile],
    parts: &[PartText],
) -> Result<List<Option<PlanKind>>, Fault>
    requires chips { length chips.now ≤ 8 }
    requires parts { length parts.now ≤ 64 }
    ensures { Reads (λ kinds. kinds) result (each_from (kind_of_part chips.now) 1 parts.now) }
{
    let mut kinds = List::new(alloc);
    for (i, part) in parts.iter().enumerate() {
        kinds.push(kind_of_part(chips, i as u32 + 1, part)?)?;
    }
    Ok(kinds)
}

fn is_uno(kind: Option<PlanKind>) -> bool
    ensures { result ≡ is_uno kind }
{
    matches!(kind, Some(PlanKind::Stock(Kind::ArduinoUno)))
}

/// Refuses with 45 BoardCount where there is no Uno, or at the second one.
pub(crate) fn one_uno(kinds: &[Option<PlanKind>]) -> Result<(), Fault>
    requires { length kinds.now ≤ 64 }
    ensures { Reads (λ u. u) result (one_uno kinds.now) }
{
    let mut found = false;
    for (i, kind) in kinds.iter().enumerate() {
        if is_uno(*kind) {
            if found {
                return Err(refused(BOARD_COUNT, Place::Part(i as u32 + 1)));
            }
            found = true;
        }
    }
    if found {
        Ok(())
    } else {
        Err(refused(BOARD_COUNT, Place::Whole))
    }
}

fn found_chip(k: u32, kind: Option<PlanKind>) -> Result<PlanKind, Fault>
    ensures { Reads (λ found. found) result (found_chip k kind) }
{
    match kind {
        Some(kind) => Ok(kind),
        None => Err(refused(CHIP_MISSING, Place::Part(k))),
    }
}

/// The same kinds, each there. Refuses with 46 ChipMissing.
pub(crate) fn found_chips(
    alloc: Global,
    kinds: &[Option<PlanKind>],
) -> Result<List<PlanKind>, Fault>
    requires { length kinds.now ≤ 64 }
    ensures { Reads (λ found. found) result (each_from found_chip 1 kinds.now) }
{
    let mut found = List::new(alloc);
    for (i, kind) in kinds.iter().enumerate() {
        found.push(found_chip(i as u32 + 1, *kind)?)?;
    }
    Ok(found)
}

pub(crate) fn is_chip(kind: Option<PlanKind>) -> bool
    ensures { result ≡ is_chip kind }
{
    matches!(kind, Some(PlanKind::Chip(_)))
}

/// Refuses with 49 BoardLimit at the ninth part that is a chip.
pub(crate) fn few_chips(kinds: &[Option<PlanKind>]) -> Result<(), Fault>
    requires { length kinds.now ≤ 64 }
    ensures { Reads (λ u. u) result (few_chips kinds.now) }
{
    let mut chips: u8 = 0;
    for (i, kind) in kinds.iter().enumerate() {
        if is_chip(*kind) {
            if chips == 8 {
                return Err(refused(BOARD_LIMIT, Place::Part(i as u32 + 1)));
            }
            chips += 1;
        }
    }
    Ok(())
}
