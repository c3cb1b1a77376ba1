//! The pins of the board: all pins of part 0, then of part 1, and so on.
ghost use Rattle.std.specs.Prelude.{◌≡◌, ◌<◌, ◌≤◌, ◌+◌, length, List, ℕ, Option, IfOk, IfSome};
ghost use Rattle.std.specs.List.{All, position_from, sum_by};
ghost use Rattle.sim_base.specs.Reads.{Reads};
ghost use Rattle.document_model.specs.Reading.{each_from};
ghost use Rattle.board_build.specs.Ids.{ids_in};
ghost use Rattle.board_build.specs.Pins.{IsShort, IsLow, has_name, pins_of_chip, count_of, pin_in, starts_from, pin_of_part, end_on_board, wire_on_board};

use crate::ids::place_of;
use crate::plan::PlanKind;
use crate::refusals::refused;
use document_model::{ChipPins, Wire};
use indexmap::IndexSet;
use part_catalog::{pin_count, pin_number};
use sim_base::{Fault, List, Name, OutOfMemory, Place};
use sim_refusals::numbers::PIN_UNKNOWN;
use std::alloc::Global;

fn chip_pins(pins: &[ChipPins], chip: u8) -> &[Option<Name>]
    requires { All IsShort pins.now }
    ensures pins { result.now ≡ pins_of_chip pins.now chip }
    ensures few { length result.now ≤ 64 }
{
    match pins.get(chip as usize) {
        Some(list) => list.as_slice(),
        None => &[],
    }
}

fn count_of(pins: &[ChipPins], kind: Option<PlanKind>) -> u16
    requires { All IsShort pins.now }
    ensures count { result ≡ count_of pins.now kind }
    ensures few { result ≤ 64 }
{
    match kind {
        None => 0,
        Some(PlanKind::Stock(kind)) => u16::from(pin_count(kind)),
        Some(PlanKind::Chip(chip)) => chip_pins(pins, chip).len() as u16,
    }
}

fn has_name(pin: &Name, name: &Option<Name>) -> bool
    ensures { result ≡ has_name pin.now name.now }
{
    match name {
        Some(name) => pin.bytes() == name.bytes(),
        None => false,
    }
}

fn named_pin(names: &[Option<Name>], pin: &Name) -> Option<u8>
    requires { length names.now ≤ 64 }
    ensures { result ≡ position_from (has_name pin.now) 0 names.now }
{
    for i in 0..names.len() {
        if has_name(pin, &names[i]) {
            return Some(i as u8);
        }
    }
    None
}

fn pin_in(pins: &[ChipPins], pin: &Name, kind: Option<PlanKind>) -> Option<u8>
    requires { All IsShort pins.now }
    ensures { result ≡ pin_in pins.now pin.now kind }
{
    match kind {
        None => Some(0),
        Some(PlanKind::Stock(kind)) => pin_number(kind, pin),
        Some(PlanKind::Chip(chip)) => named_pin(chip_pins(pins, chip), pin),
    }
}

/// Where the pins of each part begin, and how many pins there are.
pub(crate) fn starts(
    alloc: Global,
    pins: &[ChipPins],
    kinds: &[Option<PlanKind>],
) -> Result<(List<u16>, u16), OutOfMemory>
    requires short { All IsShort pins.now }
    requires few { length kinds.now ≤ 64 }
    ensures starts { IfOk result (λ r. r.0 ≡ starts_from pins.now 0 kinds.now) }
    ensures total { IfOk result (λ r. r.1 ≡ sum_by (count_of pins.now) kinds.now) }
    ensures few { IfOk result (λ r. r.1 ≤ 4096) }
    ensures low { IfOk result (λ r. All IsLow r.0) }
{
    let mut firsts = List::new(alloc);
    let mut next: u16 = 0;
    for kind in kinds {
        firsts.push(next)?;
        next += count_of(pins, *kind);
    }
    Ok((firsts, next))
}

/// What the ends of wires are looked up in.
#[derive(Drop)]
pub(crate) struct Board<'a> {
    pub(crate) pins: &'a [ChipPins],
    pub(crate) ids: &'a IndexSet<&'a [u8]>,
    pub(crate) kinds: &'a [Option<PlanKind>],
    pub(crate) firsts: &'a [u16],
    ghost short: { All IsShort pins.now },
    ghost low: { All IsLow firsts.now },
    ghost places: { firsts.now ≡ starts_from pins.now 0 kinds.now },
}

fn pin_of_part(board: &Board, pin: &Name, part: usize) -> Option<u16>
    ensures { result ≡ pin_of_part board.now.pins.now board.now.kinds.now pin.now part }
{
    let kind = *board.kinds.get(part)?;
    let number = pin_in(board.pins, pin, kind)?;
    Some(board.firsts[part] + u16::from(number))
}

fn end_on_board(board: &Board, id: &Name, pin: &Name) -> Option<u16>
    ensures { result ≡ end_on_board board.now.pins.now board.now.kinds.now (ids_in board.now.ids.now) (id.now, pin.now) }
{
    let part = place_of(board.ids, id)?;
    pin_of_part(board, pin, part)
}

fn wire_on_board(board: &Board, wire: &Wire) -> Result<(u16, u16), Fault>
    ensures { Reads (λ pair. pair) result (wire_on_board board.now.pins.now board.now.kinds.now (ids_in board.now.ids.now) wire.now) }
{
    let from = match end_on_board(board, &wire.from.0, &wire.from.1) {
        Some(pin) => pin,
        None => return Err(refused(PIN_UNKNOWN, Place::Connection(wire.number))),
    };
    let to = match end_on_board(board, &wire.to.0, &wire.to.1) {
        Some(pin) => pin,
        None => return Err(refused(PIN_UNKNOWN, Place::Connection(wire.number))),
    };
    Ok((from, to))
}

/// The pins that each wire joins. Refuses with 44 PinUnknown.
pub(crate) fn wires_on_board(
    alloc: Global,
    board: &Board,
    wires: &[Wire],
) -> Result<List<(u16, u16)>, Fault>
    ensures { Reads (λ pairs. pairs) result (each_from (λ k. wire_on_board board.now.pins.now board.now.kinds.now (ids_in board.now.ids.now)) 1 wires.now) }
{
    let mut pairs = List::new(alloc);
    for wire in wires {
        pairs.push(wire_on_board(board, wire)?)?;
    }
    Ok(pairs)
}
