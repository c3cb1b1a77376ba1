//! What the wave of a board shows.
ghost use Rattle.std.specs.Prelude.{◌≡◌, ◌+◌, ◌*◌, ◌≤◌, ◌<◌, ◌++◌, [], Some, true, false, IfOk, OnOk, length, codes, slice_get, slice_index, if◌then◌else◌};
ghost use Rattle.std.specs.List.{All};
ghost use Rattle.text_model.specs.Wave.{Net, Strong, Weak};
ghost use Rattle.vcd_text.specs.Variables.{source_of, variable_of, variables_of};
ghost use Rattle.part_catalog.specs.Pins.{pin_names};
ghost use Rattle.board_build.specs.IsPlan.{IsPlan, can_run};
ghost use Rattle.board_build.specs.Parts.{is_chip};
ghost use Rattle.board_build.specs.Pins.{IsShort};
ghost use Rattle.board_outputs.specs.Variables.{shown_names, variable, pin_variables, pins_variables, part_variables, board_variables};

use board_build::{Plan, PlanKind, PlanPart};
use document_model::ChipPins;
use part_catalog::{Kind, pin_count, pin_name};
use sim_base::{List, Name, OutOfMemory};
use std::alloc::Global;
use vcd_text::{Source, Variable, WaveHead};

fn make_variable(
    alloc: Global,
    id: &Name,
    pin: &Name,
    end: &str,
    shows: Source,
) -> Result<Variable, OutOfMemory>
    ensures { IfOk result (λ v. variable_of v ≡ variable id.now pin.now end.now (source_of shows)) }
{
    let id = id.as_str();
    let pin = pin.as_str();
    Ok(Variable {
        name: format!(in alloc; "{id}.{pin}{end}")?,
        shows,
    })
}

/// The variables of a pin of the board: one, and of a chip's pin three.
fn push_pin(
    alloc: Global,
    variables: &mut List<Variable>,
    net_of: &[u16],
    id: &Name,
    chip: bool,
    pin: u16,
    name: &Name,
) -> Result<(), OutOfMemory>
    requires { pin < length net_of.now }
    ensures pins { OnOk result (variables_of variables.new ≡ variables_of variables.old ++ pin_variables net_of.now id.now chip pin (Some name.now)) }
    ensures few { OnOk result (length variables.new ≡ length variables.old + (if chip then 3 else 1)) }
{
    let net = net_of[usize::from(pin)];
    variables.push(make_variable(alloc, id, name, "", Source::Net(net))?)?;
    if chip {
        variables.push(make_variable(alloc, id, name, ".out", Source::Strong(pin))?)?;
        variables.push(make_variable(alloc, id, name, ".pull", Source::Weak(pin))?)?;
    }
    Ok(())
}

/// How many pins of a kind are shown: the first 20 of an Uno, and all of any other.
fn shown_count(kind: Kind) -> u8
    ensures count { result ≡ length (shown_names [] (PlanKind.Stock kind)) }
    ensures pins { result ≤ length (pin_names kind) }
    ensures few { result ≤ 31 }
{
    match kind {
        Kind::ArduinoUno => 20,
        _ => pin_count(kind),
    }
}

/// The pins of a part of the catalogue that are shown; its pins begin at `first`.
fn push_stock(
    alloc: Global,
    variables: &mut List<Variable>,
    net_of: &[u16],
    id: &Name,
    kind: Kind,
    first: u16,
) -> Result<(), OutOfMemory>
    requires fits { first + length (shown_names [] (PlanKind.Stock kind)) ≤ length net_of.now }
    requires few { length net_of.now ≤ 4096 }
    ensures pins { OnOk result (variables_of variables.new
        ≡ variables_of variables.old ++ pins_variables net_of.now id.now false first (shown_names [] (PlanKind.Stock kind))) }
    ensures few { OnOk result (length variables.new ≤ length variables.old + 31) }
{
    for k in 0..shown_count(kind) {
        let pin = first + u16::from(k);
        push_pin(alloc, variables, net_of, id, false, pin, &pin_name(kind, k))?;
    }
    Ok(())
}

/// The variables of a pin of a chip; one without a name has none.
fn push_named(
    alloc: Global,
    variables: &mut List<Variable>,
    net_of: &[u16],
    id: &Name,
    pin: u16,
    name: &Option<Name>,
) -> Result<(), OutOfMemory>
    requires { pin < length net_of.now }
    ensures pins { OnOk result (variables_of variables.new ≡ variables_of variables.old ++ pin_variables net_of.now id.now true pin name.now) }
    ensures few { OnOk result (length variables.new ≤ length variables.old + 3) }
{
    match name {
        Some(name) => push_pin(alloc, variables, net_of, id, true, pin, name),
        None => Ok(()),
    }
}

/// The pins of a chip that have names.
fn push_chip(
    alloc: Global,
    variables: &mut List<Variable>,
    net_of: &[u16],
    id: &Name,
    pins: &[Option<Name>],
    first: u16,
) -> Result<(), OutOfMemory>
    requires fits { first + length pins.now ≤ length net_of.now }
    requires few_pins { length pins.now ≤ 64 }
    requires few { length net_of.now ≤ 4096 }
    ensures pins { OnOk result (variables_of variables.new ≡ variables_of variables.old ++ pins_variables net_of.now id.now true first pins.now) }
    ensures few { OnOk result (length variables.new ≤ length variables.old + 192) }
{
    for k in 0..pins.len() {
        push_named(alloc, variables, net_of, id, first + k as u16, &pins[k])?;
    }
    Ok(())
}

fn push_part(
    alloc: Global,
    variables: &mut List<Variable>,
    net_of: &[u16],
    pins: &[ChipPins],
    part: &PlanPart,
    first: u16,
) -> Result<(), OutOfMemory>
    requires fits { first + length (shown_names pins.now part.now.kind) ≤ length net_of.now }
    requires ready { can_run (length pins.now) part.now.kind ≡ true }
    requires few_pins { All IsShort pins.now }
    requires few { length net_of.now ≤ 4096 }
    ensures pins { OnOk result (variables_of variables.new ≡ variables_of variables.old ++ part_variables pins.now net_of.now first part.now) }
    ensures few { OnOk result (length variables.new ≤ length variables.old + (if is_chip (Some part.now.kind) then 192 else 31)) }
{
    match part.kind {
        PlanKind::Stock(kind) => push_stock(alloc, variables, net_of, &part.id, kind, first),
        PlanKind::Chip(chip) => push_chip(
            alloc,
            variables,
            net_of,
            &part.id,
            pins[chip as usize].as_slice(),
            first,
        ),
    }
}

/// The variables of a board's wave: at most 31 of each of at most 64 parts, and of each of at most 8
/// chips at most 192.
fn make_variables(
    alloc: Global,
    plan: &Plan,
    pins: &[ChipPins],
) -> Result<List<Variable>, OutOfMemory>
    requires plan { IsPlan pins.now plan.now }
    requires few_pins { All IsShort pins.now }
    ensures variables { IfOk result (λ l. variables_of l ≡ board_variables pins.now plan.now) }
    ensures few { IfOk result (λ l. length l ≤ 8930) }
{
    let mut variables = List::new(alloc);
    let net_of = plan.wiring.net_of.as_slice();
    let firsts = plan.wiring.first_pin.as_slice();
    let parts = plan.parts.as_slice();
    for i in 0..parts.len() {
        push_part(alloc, &mut variables, net_of, pins, &parts[i], firsts[i])?;
    }
    Ok(variables)
}

/// The head of a board's wave, with the room for its text.
pub fn wave_head(alloc: Global, plan: &Plan, pins: &[ChipPins]) -> Result<WaveHead, OutOfMemory>
    requires plan { IsPlan pins.now plan.now }
    requires few_pins { All IsShort pins.now }
    ensures { IfOk result (λ h. h.variables ≡ board_variables pins.now plan.now) }
{
    let variables = make_variables(alloc, plan, pins)?;
    WaveHead::of(alloc, variables)
}
