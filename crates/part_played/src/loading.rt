//! The parts of a plan, with a player of a wave's drives in place of each chip.
ghost use Rattle.std.specs.Prelude.{◌≡◌, ◌≢◌, ◌≤◌, ◌+◌, List, ℕ, length, map, take, drop, true, false, Some, None, IfOk, if◌then◌else◌};
ghost use Rattle.std.specs.List.{All};
ghost use Rattle.part_law.specs.Spans.{no_pins};
ghost use Rattle.board_model.specs.Fits.{Fits};
ghost use Rattle.board_model.specs.Fresh.{AreFresh};
ghost use Rattle.law_board.specs.Player.{new_player as fresh_player};
ghost use Rattle.law_board.specs.Play.{or_player, played};
ghost use Rattle.law_board.specs.Worlds.{is_chip};
ghost use Rattle.trace_run.specs.Rows.{AreInOrder};
ghost use Rattle.board_build.specs.Parts.{is_uno};
ghost use Rattle.board_build.specs.Pins.{count_of};
ghost use Rattle.board_build.specs.IsPlan.{IsPlan, can_run};
ghost use Rattle.chip_module.specs.Sources.{HasFewPins, pins_of};
ghost use Rattle.any_part.specs.AnyPart.{any};
ghost use Rattle.any_part.specs.Start.{starts, new_uno};
ghost use Rattle.part_played.specs.Played.{state_of, cycle_of, wakes_of};
ghost use Rattle.part_played.specs.Start.{AreRowsFor, Begins, play_start, rows_of_part};

use crate::part::PlayedPart;
use any_part::stock_part;
use avr_mcu::Mcu;
use board_build::{Plan, PlanKind, PlanPart};
use chip_module::ChipSource;
use part_either::Either;
use sim_base::{Drive, Flash, List, OutOfMemory};
use std::alloc::Global;
use trace_run::Player;
use vcd_text::DriveRows;

/// The rows of a pin once more.
fn copied(alloc: Global, rows: &[(u32, Drive)]) -> Result<List<(u32, Drive)>, OutOfMemory>
    ensures { IfOk result (λ copy. copy ≡ rows.now) }
{
    let mut copy = Vec::new(alloc);
    copy.extend_from_slice(rows)?;
    Ok(List::from_vec(copy))
}

/// The rows of so many pins of the board from pin `first` on, a list a pin.
fn rows_from(
    alloc: Global,
    rows: &DriveRows,
    first: usize,
    count: usize,
) -> Result<List<List<(u32, Drive)>>, OutOfMemory>
    requires fits { first + count ≤ length rows.now }
    requires few { length rows.now ≤ 4096 }
    ensures { IfOk result (λ pins. pins ≡ take count (drop first rows.now)) }
{
    let mut pins = List::new(alloc);
    for k in 0..count {
        let pin = copied(alloc, rows.rows(first + k))?;
        pins.push(pin)?;
    }
    Ok(pins)
}

/// The player of these pins' rows.
fn new_player(
    alloc: Global,
    rows: &DriveRows,
    first: usize,
    count: usize,
) -> Result<PlayedPart, OutOfMemory>
    requires fits { first + count ≤ length rows.now }
    requires few { length rows.now ≤ 4096 }
    requires few_pins { count ≤ 64 }
    requires order { All AreInOrder rows.now }
    ensures { IfOk result (λ p. p ≡ Either.Right (record { player = fresh_player (take count (drop first rows.now)); wakes = 0; moved = no_pins })) }
{
    Ok(Either::Right(Player::new(rows_from(alloc, rows, first, count)?)))
}

/// A part whose pins begin at `first`; a chip's module is not looked at. An Uno is the one that is lent.
fn new_part(
    alloc: Global,
    part: &PlanPart,
    chips: &[ChipSource],
    rows: &DriveRows,
    first: usize,
    uno: &mut Option<Mcu>,
) -> Result<PlayedPart, OutOfMemory>
    requires ready { can_run (length chips.now) part.now.kind ≡ true }
    requires few_pins { All HasFewPins chips.now }
    requires fits { first + count_of (pins_of chips.now) (Some part.now.kind) ≤ length rows.now }
    requires few { length rows.now ≤ 4096 }
    requires order { All AreInOrder rows.now }
    requires uno { is_uno (Some part.now.kind) ≡ true → uno.old ≢ None }
    ensures begins { IfOk result (λ p. (flash : List ℕ) → (is_uno (Some part.now.kind) ≡ true → uno.old ≡ Some (new_uno flash)) →
        Begins (play_start (record { flash = flash; chips = chips.now; budget = 0 }) rows.now first part.now) p) }
    ensures uno { uno.new ≡ (if is_uno (Some part.now.kind) then None else uno.old) }
{
    match part.kind {
        PlanKind::Stock(kind) => Ok(Either::Left(stock_part(kind, part.settings, uno))),
        PlanKind::Chip(chip) => {
            let pins = chips[chip as usize].pins.len();
            new_player(alloc, rows, first, pins)
        }
    }
}

/// The parts of a plan in its order, each at cycle 0: a player of what the rows say of its pins in place of each chip, and any
/// other part in its start state, the Uno with this flash. No chip's module is made or run, so their budget does not matter.
pub fn load_played(
    alloc: Global,
    plan: &Plan,
    flash: Flash,
    chips: &[ChipSource],
    rows: &DriveRows,
) -> Result<List<PlayedPart>, OutOfMemory>
    requires plan { IsPlan (pins_of chips.now) plan.now }
    requires few_pins { All HasFewPins chips.now }
    requires rows { AreRowsFor plan.now rows.now }
    ensures states { IfOk result (λ parts. map state_of parts ≡ played (is_chip plan.now.wiring)
        (rows_of_part (pins_of chips.now) plan.now rows.now)
        (starts (record { flash = flash; chips = chips.now; budget = 0 }) plan.now.parts)) }
    ensures all { IfOk result (λ parts. length parts ≡ length plan.now.parts) }
    ensures fresh { IfOk result (λ parts. AreFresh (or_player any) state_of cycle_of wakes_of parts) }
    ensures fits { IfOk result (λ parts. Fits (or_player any) plan.now.wiring (map state_of parts)) }
{
    let mut uno = Some(Mcu::new(alloc, flash)?);
    let mut parts = List::new(alloc);
    let planned = plan.parts.as_slice();
    let firsts = plan.wiring.first_pin.as_slice();
    for i in 0..planned.len() {
        let first = usize::from(firsts[i]);
        let part = new_part(alloc, &planned[i], chips, rows, first, &mut uno)?;
        parts.push(part)?;
    }
    Ok(parts)
}
