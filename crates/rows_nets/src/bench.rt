//! How fast nets are resolved on a board of 64 parts with 16 pins each and 512 wires, of which one pin
//! drives something else before each resolution. `bench/nets.sh` measures how long this takes.
ghost use Rattle.std.specs.Prelude.{◌≡◌, ◌<◌, length};

use net_resolve::{Nets, has_valid_nets};
use sim_base::{Drive, Level, List, OutOfMemory, Wiring};
use std::alloc::Global;
use std::io;
use std::mem::drop;

const PINS: u16 = 1024;

const NETS: u16 = 512;

const RESOLUTIONS: u32 = 1_000_000;

fn push_nets(net_of: &mut List<u16>) -> Result<(), OutOfMemory> {
    for pin in 0..PINS {
        net_of.push(pin % NETS)?;
    }
    Ok(())
}

fn push_contacts(contacts: &mut List<(u16, u16)>) -> Result<(), OutOfMemory> {
    for k in 0..16 {
        contacts.push((2 * k, 2 * k + 1))?;
    }
    Ok(())
}

fn push_resistors(resistors: &mut List<(u16, u16)>) -> Result<(), OutOfMemory> {
    for k in 0..64 {
        resistors.push((64 + k, 300 + k))?;
    }
    Ok(())
}

fn fill(wiring: &mut Wiring) -> Result<(), OutOfMemory> {
    push_nets(&mut wiring.net_of)?;
    push_contacts(&mut wiring.contacts)?;
    push_resistors(&mut wiring.resistors)
}

/// A wire from each pin to that 512 pins further on, 16 buttons and 64 resistors.
fn wiring(alloc: Global) -> Result<Wiring, OutOfMemory> {
    let mut wiring = Wiring {
        nets: NETS,
        net_of: List::new(alloc),
        contacts: List::new(alloc),
        resistors: List::new(alloc),
        first_pin: List::new(alloc),
        chip: List::new(alloc),
    };
    match fill(&mut wiring) {
        Ok(()) => Ok(wiring),
        Err(OutOfMemory) => {
            drop(wiring);
            Err(OutOfMemory)
        }
    }
}

/// Resolves the nets again and again, each time with another drive of one pin, and counts how often
/// net 0 is High.
fn toggle(nets: &mut Nets, pins: usize) -> u32
    requires some { 0 < nets.old.wiring.nets }
    requires any { 0 < pins }
    requires pins { pins ≡ length nets.old.wiring.net_of }
{
    let mut high: u32 = 0;
    for i in 0..RESOLUTIONS {
        let pin = (i / 2) as usize % pins;
        nets.set_drive(pin, if i % 2 == 0 { Drive::High } else { Drive::Z });
        nets.resolve_marked();
        if matches!(nets.level(0), Level::High) {
            high = high.saturating_add(1);
        }
    }
    high
}

fn high_count_on(alloc: Global, wiring: Wiring) -> Result<u32, OutOfMemory> {
    if !has_valid_nets(&wiring) || wiring.nets == 0 || wiring.net_of.len() == 0 {
        return Ok(0);
    }
    let pins = wiring.net_of.len();
    let mut nets = Nets::new(alloc, wiring)?;
    let high = toggle(&mut nets, pins);
    drop(nets);
    Ok(high)
}

fn high_count(alloc: Global) -> Result<u32, OutOfMemory> {
    let wiring = wiring(alloc)?;
    high_count_on(alloc, wiring)
}

/// Prints how often a net is High.
pub(crate) fn bench(rt: &HostRuntime) -> io::Result<()> {
    match high_count(rt.alloc()) {
        Ok(high) => println!(rt; "{RESOLUTIONS} resolutions, net 0 is High after {high} of them"),
        Err(_) => println!(rt; "out of memory"),
    }
}
