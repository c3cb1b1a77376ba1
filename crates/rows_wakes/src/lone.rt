//! An Uno alone on its board.
ghost use Rattle.std.specs.Prelude.{◌≡◌, ◌<◌, ◌≤◌, [], ◌∷◌, false, IfOk, IfSome, OnOk, length};

use crate::unseen::Unseen;
use avr_mcu::Mcu;
use board_run::{Board, RunEnd};
use input_texts::read_hex;
use net_resolve::has_valid_nets;
use part_law::Part;
use sim_base::{Flash, List, MOST_CYCLES, OutOfMemory, Steps, Wiring};
use std::alloc::{AllocError, Global};
use std::marker::Brand;
use std::mem::drop;
use std::sync::ledger::{Blank, Ledger};

/// A net for each pin.
const NETS: [u16; 31] = [
    0, 1, 2, 3, 4, 5, 6, 7, 8, 9, 10, 11, 12, 13, 14, 15, 16, 17, 18, 19, 20, 21, 22, 23, 24, 25,
    26, 27, 28, 29, 30,
];

fn list_of<T: Copy>(alloc: Global, items: &[T]) -> Result<List<T>, AllocError>
    ensures { IfOk result (λ l. l ≡ items.now) }
{
    Ok(List::from_vec(Vec::from_slice(alloc, items)?))
}

fn put<T: Copy>(alloc: Global, list: &mut List<T>, items: &[T]) -> Result<(), AllocError>
    ensures { OnOk result (list.new ≡ items.now) }
{
    *list = list_of(alloc, items)?;
    Ok(())
}

/// A net for each pin of one part.
fn fill(alloc: Global, wiring: &mut Wiring) -> Result<(), AllocError>
    ensures pins { OnOk result (length wiring.new.net_of ≡ 31) }
    ensures contacts { wiring.new.contacts ≡ wiring.old.contacts }
    ensures first { OnOk result (wiring.new.first_pin ≡ 0 ∷ []) }
    ensures chip { OnOk result (wiring.new.chip ≡ false ∷ []) }
{
    put(alloc, &mut wiring.net_of, &NETS)?;
    put(alloc, &mut wiring.first_pin, &[0])?;
    put(alloc, &mut wiring.chip, &[false])
}

fn lone_wiring(alloc: Global) -> Result<Wiring, OutOfMemory>
    ensures pins { IfOk result (λ w. length w.net_of ≡ 31) }
    ensures contacts { IfOk result (λ w. w.contacts ≡ []) }
    ensures first { IfOk result (λ w. w.first_pin ≡ 0 ∷ []) }
    ensures chip { IfOk result (λ w. w.chip ≡ false ∷ []) }
{
    let mut wiring = Wiring {
        nets: 31,
        net_of: List::new(alloc),
        contacts: List::new(alloc),
        resistors: List::new(alloc),
        first_pin: List::new(alloc),
        chip: List::new(alloc),
    };
    match fill(alloc, &mut wiring) {
        Ok(()) => Ok(wiring),
        Err(AllocError) => {
            drop(wiring);
            Err(OutOfMemory)
        }
    }
}

fn alone(alloc: Global, mcu: Mcu) -> Result<List<Mcu>, OutOfMemory>
    ensures { IfOk result (λ l. l ≡ mcu ∷ []) }
{
    let mut parts = List::new(alloc);
    parts.push(mcu)?;
    Ok(parts)
}

/// A board with an Uno alone, at cycle 0; None where it cannot be made.
fn lone_board(alloc: Global, flash: Flash) -> Option<Board<Mcu>>
    ensures cycle { IfSome result (λ b. b.cycle ≡ 0) }
    ensures alive { IfSome result (λ b. b.given_up ≡ false) }
{
    let Ok(mcu) = Mcu::new(alloc, flash) else {
        return None;
    };
    let Ok(parts) = alone(alloc, mcu) else {
        return None;
    };
    let Ok(wiring) = lone_wiring(alloc) else {
        drop(parts);
        return None;
    };
    if !has_valid_nets(&wiring) {
        drop(wiring);
        drop(parts);
        return None;
    }
    match Board::new(alloc, parts, wiring, List::new(alloc)) {
        Ok(board) => Some(board),
        Err(OutOfMemory) => None,
    }
}

/// The wakes of the first part in the cycles up to `n` of a new board, None where there is none.
fn wakes_in<P: Part, L: Ledger>(board: &mut Board<P>, n: u64, blank: Blank) -> Option<u64>
    requires cycle { board.old.cycle ≡ 0 }
    requires alive { board.old.given_up ≡ false }
    requires some { 0 < n }
    requires end { n ≤ MOST_CYCLES }
    requires name { blank.name ≡ L.name }
    requires parts { blank.parts ≡ L.parts }
    requires shares { 0 < L.parts }
{
    let mut steps: Steps<L> = Steps::new(blank);
    let mut unseen = Unseen::new();
    match board.run(n, &mut unseen, &mut steps) {
        RunEnd::Done => first_woken(board.parts().as_slice()),
        RunEnd::WriteFault => None,
    }
}

/// The wakes in `n` cycles from reset, None where the board cannot be run.
fn run_alone<L: Ledger>(alloc: Global, flash: Flash, n: u64, blank: Blank) -> Option<u64>
    requires some { 0 < n }
    requires end { n ≤ MOST_CYCLES }
    requires name { blank.name ≡ L.name }
    requires parts { blank.parts ≡ L.parts }
    requires shares { 0 < L.parts }
{
    match lone_board(alloc, flash) {
        Some(mut board) => {
            let wakes = wakes_in::<Mcu, L>(&mut board, n, blank);
            drop(board);
            wakes
        }
        None => None,
    }
}

fn first_woken<P: Part>(parts: &[P]) -> Option<u64> {
    match parts.first() {
        Some(part) => Some(part.woken()),
        None => None,
    }
}

/// The wakes in so many microseconds, 16 cycles each.
pub fn wakes_of(alloc: Global, hex: &[u8], micros: u32) -> Option<u64> {
    if micros == 0 || micros > 10_000_000 || hex.len() > 65_536 {
        return None;
    }
    match read_hex(alloc, hex) {
        Ok(flash) => run_alone::<Brand>(alloc, flash, 16 * u64::from(micros), Blank::new(1)),
        Err(_) => None,
    }
}
