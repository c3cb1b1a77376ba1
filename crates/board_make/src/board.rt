//! The generated project and its board.
ghost use Rattle.std.specs.Prelude.{◌≡◌, ◌+◌, ◌/◌, ◌%◌, ◌++◌, ◌∷◌, [], ◌≤◌, ◌<◌, true, length, IfOk, OnOk, codes};
ghost use Rattle.std.specs.List.{list_all};
ghost use Rattle.sim_base.specs.Names.{is_name, is_name_byte};
ghost use Rattle.board_make.specs.Board.{chip_pins, diagram, gate_wires, lamp_parts, lamp_wires, lamps_parts, lamps_wires};
ghost use Rattle.board_make.specs.Board.{numbered, part, parts, project, wire, wires};

use crate::draws::after;
use document_model::{ChipFile, ChipPins, Diagram, PartText, Project, Wire};
use sim_base::{List, Name, OutOfMemory, Text};
use std::alloc::Global;

/// How many lamps there are.
const LAMPS: u8 = 8;

fn name(text: &str) -> Name
    requires { is_name text.now ≡ true }
    ensures { result ≡ text.now }
{
    match Name::read(text) {
        Some(name) => name,
        None => unreachable!(),
    }
}

/// A name of the Uno's pin `k`.
#[tactic(auto, using(crate::proofs::MakeLemmas::numbered_name))]
fn numbered(alloc: Global, front: &str, k: u8) -> Result<Name, OutOfMemory>
    requires digit { k < 10 }
    requires front { list_all is_name_byte front.now ≡ true }
    requires short { length front.now ≤ 8 }
    ensures { IfOk result (λ n. n ≡ numbered front.now k) }
{
    let text = format!(in alloc; "{front}{k}")?;
    Ok(name(text.as_str()))
}

/// The project, which has one chip.
pub(crate) fn project(alloc: Global) -> Result<Project, OutOfMemory>
    ensures { IfOk result (λ p. p ≡ project) }
{
    let mut chips = List::new(alloc);
    chips.push(ChipFile {
        name: name("inverter"),
        binary: Text::from_str(alloc, "inverter.wasm")?,
        json: Text::from_str(alloc, "inverter.json")?,
    })?;
    Ok(Project {
        firmware: Text::from_str(alloc, "make.hex")?,
        chips,
    })
}

/// The pins of the chip.
pub(crate) fn chip_pins(alloc: Global) -> Result<ChipPins, OutOfMemory>
    ensures { IfOk result (λ pins. pins ≡ chip_pins) }
{
    let mut pins = List::new(alloc);
    pins.push(Some(name("IN")))?;
    pins.push(Some(name("OUT")))?;
    Ok(pins)
}

fn push_part(
    alloc: Global,
    parts: &mut List<PartText>,
    kind: &str,
    id: Name,
) -> Result<(), OutOfMemory>
    ensures { OnOk result (parts.new ≡ parts.old ++ part kind.now id ∷ []) }
{
    let kind = Text::from_str(alloc, kind)?;
    let attrs = List::new(alloc);
    parts.push(PartText { kind, id, attrs })
}

fn push_wire(
    wires: &mut List<Wire>,
    number: u32,
    from: (Name, Name),
    to: (Name, Name),
) -> Result<(), OutOfMemory>
    ensures { OnOk result (wires.new ≡ wires.old ++ wire number from to ∷ []) }
{
    wires.push(Wire { from, to, number })
}

/// The parts of lamp `i`.
fn push_lamp_parts(alloc: Global, parts: &mut List<PartText>, i: u8) -> Result<(), OutOfMemory>
    requires { i < 8 }
    ensures { OnOk result (parts.new ≡ parts.old ++ lamp_parts i) }
{
    push_part(alloc, parts, "wokwi-resistor", numbered(alloc, "r", i + 2)?)?;
    push_part(alloc, parts, "wokwi-led", numbered(alloc, "led", i + 2)?)?;
    Ok(())
}

/// The wires through lamp `i`.
fn push_lamp_wires(alloc: Global, wires: &mut List<Wire>, i: u8) -> Result<(), OutOfMemory>
    requires { i < 8 }
    ensures { OnOk result (wires.new ≡ wires.old ++ lamp_wires i) }
{
    let pin = i + 2;
    let first = 3 * u32::from(i) + 1;
    push_wire(
        wires,
        first,
        (name("uno"), numbered(alloc, "", pin)?),
        (numbered(alloc, "r", pin)?, name("1")),
    )?;
    push_wire(
        wires,
        first + 1,
        (numbered(alloc, "r", pin)?, name("2")),
        (numbered(alloc, "led", pin)?, name("A")),
    )?;
    push_wire(
        wires,
        first + 2,
        (numbered(alloc, "led", pin)?, name("C")),
        (name("uno"), name("GND.1")),
    )
}

/// The Uno and the parts of the lamps.
#[tactic(auto, using(crate::proofs::MakeLemmas::parts_none, crate::proofs::MakeLemmas::parts_more))]
fn lamps_parts(alloc: Global) -> Result<List<PartText>, OutOfMemory>
    ensures { IfOk result (λ l. l ≡ part (codes "wokwi-arduino-uno") (codes "uno") ∷ [] ++ lamps_parts 8) }
{
    let mut parts = List::new(alloc);
    push_part(alloc, &mut parts, "wokwi-arduino-uno", name("uno"))?;
    for i in 0..LAMPS {
        push_lamp_parts(alloc, &mut parts, i)?;
    }
    Ok(parts)
}

/// The wires through the lamps.
#[tactic(auto, using(crate::proofs::MakeLemmas::wires_none, crate::proofs::MakeLemmas::wires_more))]
fn lamps_wires(alloc: Global) -> Result<List<Wire>, OutOfMemory>
    ensures { IfOk result (λ l. l ≡ lamps_wires 8) }
{
    let mut wires = List::new(alloc);
    for i in 0..LAMPS {
        push_lamp_wires(alloc, &mut wires, i)?;
    }
    Ok(wires)
}

fn parts(alloc: Global) -> Result<List<PartText>, OutOfMemory>
    ensures { IfOk result (λ l. l ≡ parts) }
{
    let mut parts = lamps_parts(alloc)?;
    push_part(alloc, &mut parts, "chip-inverter", name("inv1"))?;
    push_part(alloc, &mut parts, "chip-inverter", name("inv2"))?;
    push_part(alloc, &mut parts, "wokwi-gate-xor-2", name("x1"))?;
    Ok(parts)
}

/// A pin from 2 to 9, by a number that was drawn.
fn drawn_pin(x: u32) -> u8
    ensures pin { result ≡ 2 + x / 65536 % 8 }
    ensures few { result < 10 }
{
    2 + (x / 65536 % 8) as u8
}

/// The wires of the two inverters, whose inputs are pins `p` and `q` of the Uno, and of the gate behind them.
fn push_gate_wires(wires: &mut List<Wire>, p: Name, q: Name) -> Result<(), OutOfMemory>
    ensures { OnOk result (wires.new ≡ wires.old ++ gate_wires p q) }
{
    push_wire(wires, 25, (name("uno"), p), (name("inv1"), name("IN")))?;
    push_wire(wires, 26, (name("uno"), q), (name("inv2"), name("IN")))?;
    push_wire(
        wires,
        27,
        (name("inv1"), name("OUT")),
        (name("x1"), name("A")),
    )?;
    push_wire(
        wires,
        28,
        (name("inv2"), name("OUT")),
        (name("x1"), name("B")),
    )?;
    push_wire(
        wires,
        29,
        (name("x1"), name("OUT")),
        (name("uno"), name("A0")),
    )
}

fn wires(alloc: Global, seed: u32) -> Result<List<Wire>, OutOfMemory>
    ensures { IfOk result (λ l. l ≡ wires seed) }
{
    let mut wires = lamps_wires(alloc)?;
    let first = after(seed);
    let second = after(first);
    let p = numbered(alloc, "", drawn_pin(first))?;
    let q = numbered(alloc, "", drawn_pin(second))?;
    push_gate_wires(&mut wires, p, q)?;
    Ok(wires)
}

/// The board of a seed.
pub(crate) fn diagram(alloc: Global, seed: u32) -> Result<Diagram, OutOfMemory>
    ensures { IfOk result (λ d. d ≡ diagram seed) }
{
    Ok(Diagram {
        parts: parts(alloc)?,
        wires: wires(alloc, seed)?,
    })
}
