//! What joins the pins of the board.
ghost use Rattle.std.specs.Prelude.{◌≡◌, ◌≤◌, ◌<◌, ◌++◌, length, map, sum, List, ℕ, IfOk, OnOk, Option, Some};
ghost use Rattle.std.specs.List.{All};
ghost use Rattle.net_pins.specs.Labels.{IsBelow};
ghost use Rattle.board_build.specs.Parts.{is_chip};
ghost use Rattle.board_build.specs.Pins.{IsLow, IsShort, count_of, starts_from, pairs_at, pairs_inside, contacts_inside, resistors_in};
ghost use Rattle.board_build.specs.Plan.{nets_of_pairs, joined, wiring_of};
ghost use Rattle.board_build.specs.Inside.{inside_of};

use crate::kinds::is_chip;
use crate::plan::PlanKind;
use arrayvec::ArrayVec;
use net_pins::number_nets;
use part_catalog::{Kind, contacts_of, joins};
use sim_base::{List, OutOfMemory, Wiring};
use std::alloc::Global;

/// What lies between pins of one part.
#[derive(Clone, Copy)]
pub(crate) enum Inside {
    Joins,
    Contacts,
    Resistors,
}

fn resistor(kind: Kind) -> ArrayVec<(u8, u8), 32>
    ensures { result.items ≡ resistors_in (Some (PlanKind.Stock kind)) }
{
    let mut pairs = ArrayVec::new();
    if kind == Kind::Resistor {
        pairs.push((0, 1));
    }
    pairs
}

fn pairs_of(inside: Inside, kind: Option<PlanKind>) -> ArrayVec<(u8, u8), 32>
    ensures { result.items ≡ inside_of inside kind }
{
    match (inside, kind) {
        (Inside::Joins, Some(PlanKind::Stock(kind))) => joins(kind),
        (Inside::Contacts, Some(PlanKind::Stock(kind))) => contacts_of(kind),
        (Inside::Resistors, Some(PlanKind::Stock(kind))) => resistor(kind),
        _ => ArrayVec::new(),
    }
}

fn add_pairs(list: &mut List<(u16, u16)>, first: u16, pairs: &[(u8, u8)]) -> Result<(), OutOfMemory>
    requires { IsLow first }
    ensures { OnOk result (list.new ≡ list.old ++ pairs_at first pairs.now) }
{
    for (a, b) in pairs {
        list.push((first + u16::from(*a), first + u16::from(*b)))?;
    }
    Ok(())
}

fn add_inside(
    list: &mut List<(u16, u16)>,
    inside: Inside,
    firsts: &[u16],
    kinds: &[Option<PlanKind>],
) -> Result<(), OutOfMemory>
    requires same { length firsts.now ≡ length kinds.now }
    requires low { All IsLow firsts.now }
    ensures { OnOk result (list.new ≡ list.old ++ pairs_inside (inside_of inside) firsts.now kinds.now) }
{
    for i in 0..kinds.len() {
        add_pairs(list, firsts[i], pairs_of(inside, kinds[i]).as_slice())?;
    }
    Ok(())
}

fn nets_of(
    alloc: Global,
    net_of: &[u16],
    pairs: &[(u16, u16)],
) -> Result<List<(u16, u16)>, OutOfMemory>
    requires { All (IsBelow (length net_of.now)) pairs.now }
    ensures { IfOk result (λ nets. nets ≡ nets_of_pairs net_of.now pairs.now) }
{
    let mut nets = List::new(alloc);
    for (a, b) in pairs {
        nets.push((net_of[*a as usize], net_of[*b as usize]))?;
    }
    Ok(nets)
}

fn nets_inside(
    alloc: Global,
    inside: Inside,
    net_of: &[u16],
    firsts: &[u16],
    kinds: &[Option<PlanKind>],
) -> Result<List<(u16, u16)>, OutOfMemory>
    requires same { length firsts.now ≡ length kinds.now }
    requires low { All IsLow firsts.now }
    requires below { All (IsBelow (length net_of.now)) (pairs_inside (inside_of inside) firsts.now kinds.now) }
    ensures { IfOk result (λ nets. nets ≡ nets_of_pairs net_of.now (pairs_inside (inside_of inside) firsts.now kinds.now)) }
{
    let mut pairs = List::new(alloc);
    add_inside(&mut pairs, inside, firsts, kinds)?;
    nets_of(alloc, net_of, pairs.as_slice())
}

fn chips(alloc: Global, kinds: &[Option<PlanKind>]) -> Result<List<bool>, OutOfMemory>
    ensures { IfOk result (λ chips. chips ≡ map is_chip kinds.now) }
{
    let mut chips = List::new(alloc);
    for kind in kinds {
        chips.push(is_chip(*kind))?;
    }
    Ok(chips)
}

/// The wiring of parts whose pins begin at `firsts`, of `count` pins in all.
pub(crate) fn wiring(
    alloc: Global,
    wires: List<(u16, u16)>,
    firsts: List<u16>,
    count: u16,
    kinds: &[Option<PlanKind>],
) -> Result<Wiring, OutOfMemory>
    requires same { length firsts ≡ length kinds.now }
    requires low { All IsLow firsts }
    requires joined { All (IsBelow count) (joined wires firsts kinds.now) }
    requires contacts { All (IsBelow count) (pairs_inside contacts_inside firsts kinds.now) }
    requires resistors { All (IsBelow count) (pairs_inside resistors_in firsts kinds.now) }
    ensures { IfOk result (λ wiring. wiring ≡ wiring_of wires firsts count kinds.now) }
{
    let mut pairs = wires;
    add_inside(&mut pairs, Inside::Joins, firsts.as_slice(), kinds)?;
    let numbers = number_nets(alloc, pairs.as_slice(), count)?;
    let net_of = numbers.net_of.as_slice();
    let contacts = nets_inside(alloc, Inside::Contacts, net_of, firsts.as_slice(), kinds)?;
    let resistors = nets_inside(alloc, Inside::Resistors, net_of, firsts.as_slice(), kinds)?;
    let chip = chips(alloc, kinds)?;
    Ok(Wiring {
        nets: numbers.nets,
        net_of: numbers.net_of,
        contacts,
        resistors,
        first_pin: firsts,
        chip,
    })
}
