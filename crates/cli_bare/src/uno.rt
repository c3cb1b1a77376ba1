//! The plan of one Uno without wires, and the Uno.
ghost use Rattle.std.specs.Prelude.{◌≡◌, IfOk, codes, length, map};
ghost use Rattle.board_model.specs.Fresh.{AreFresh};
ghost use Rattle.avr_mcu.specs.Mcu.{mcu, McuAt};
ghost use Rattle.cli_bare.specs.Bare.{uno_wiring, uno_part, uno_plan, uno_starts};

use avr_mcu::Mcu;
use board_build::{Plan, PlanKind, PlanPart};
use part_catalog::{Kind, Settings};
use sim_base::{Flash, List, Name, OutOfMemory, Wiring};
use std::alloc::{AllocError, Global};

/// The net of each pin: A4.2 and A5.2 are joined with A4 and A5.
const NETS: [u16; 31] = [
    0, 1, 2, 3, 4, 5, 6, 7, 8, 9, 10, 11, 12, 13, 14, 15, 16, 17, 18, 19, 18, 19, 20, 21, 22, 23,
    24, 25, 26, 27, 28,
];

fn list_of<T: Copy>(alloc: Global, items: &[T]) -> Result<List<T>, AllocError>
    ensures { IfOk result (λ l. l ≡ items.now) }
{
    Ok(List::from_vec(Vec::from_slice(alloc, items)?))
}

fn make_wiring(alloc: Global) -> Result<Wiring, OutOfMemory>
    ensures { IfOk result (λ w. w ≡ uno_wiring) }
{
    Ok(Wiring {
        nets: 29,
        net_of: list_of(alloc, &NETS)?,
        contacts: List::new(alloc),
        resistors: List::new(alloc),
        first_pin: list_of(alloc, &[0])?,
        chip: list_of(alloc, &[false])?,
    })
}

fn uno_id() -> Name
    ensures { result ≡ codes "uno" }
{
    match Name::read("uno") {
        Some(id) => id,
        None => unreachable!(),
    }
}

fn uno_part(alloc: Global) -> PlanPart
    ensures { result ≡ uno_part }
{
    PlanPart {
        id: uno_id(),
        kind: PlanKind::Stock(Kind::ArduinoUno),
        settings: Settings {
            number: 0,
            choice: 0,
        },
        attrs: List::new(alloc),
    }
}

/// The Uno is the one part of the board.
pub(crate) fn make_plan(alloc: Global) -> Result<Plan, OutOfMemory>
    ensures { IfOk result (λ p. p ≡ uno_plan) }
{
    let mut parts = List::new(alloc);
    parts.push(uno_part(alloc))?;
    Ok(Plan {
        parts,
        wiring: make_wiring(alloc)?,
        inputs: List::new(alloc),
    })
}

/// The Uno after reset with this flash.
pub(crate) fn make_parts(alloc: Global, flash: Flash) -> Result<List<Mcu>, OutOfMemory>
    ensures states { IfOk result (λ parts. map (λ (p : McuAt). p.mcu) parts ≡ uno_starts flash) }
    ensures fresh { IfOk result (λ parts. AreFresh mcu (λ p. p.mcu) (λ p. p.cycle) (λ p. p.wakes) parts) }
    ensures one { IfOk result (λ parts. length parts ≡ 1) }
{
    let mut parts = List::new(alloc);
    parts.push(Mcu::new(alloc, flash)?)?;
    Ok(parts)
}
