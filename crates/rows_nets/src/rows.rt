//! Worked nets, and every combination of drives on three pins against the plain program of the definition.
ghost use Rattle.std.specs.Prelude.{◌≡◌, length, IfOk, OnOk};
ghost use Rattle.board_model.specs.Fits.{IsWiring};

use net_reference::plain_levels;
use net_resolve::{Nets, has_valid_nets};
use sim_base::{Drive, Level, List, OutOfMemory, Wiring};
use std::alloc::{AllocError, Global};
use std::io;
use std::mem::drop;

const DRIVES: [Drive; 6] = [
    Drive::Z,
    Drive::Low,
    Drive::High,
    Drive::PullLow,
    Drive::PullHigh,
    Drive::Wiper(700),
];

/// A pin each on nets that contacts and resistors join.
#[derive(Drop)]
struct Circuit<'a> {
    net_of: [u16; 3],
    contacts: &'a [(u16, u16)],
    resistors: &'a [(u16, u16)],
    closed: &'a [bool],
}

fn list_of<T: Copy>(alloc: Global, items: &[T]) -> Result<List<T>, AllocError>
    ensures { IfOk result (λ l. l ≡ items.now) }
{
    Ok(List::from_vec(Vec::from_slice(alloc, items)?))
}

fn put<T: Copy>(alloc: Global, list: &mut List<T>, items: &[T]) -> Result<(), AllocError>
    ensures { OnOk result (list.new ≡ items.now) }
{
    *list = list_of(alloc, items)?;
    Ok(())
}

fn fill(alloc: Global, wiring: &mut Wiring, circuit: &Circuit) -> Result<(), AllocError>
    ensures pins { OnOk result (length wiring.new.net_of ≡ 3) }
    ensures contacts { OnOk result (wiring.new.contacts ≡ circuit.now.contacts.now) }
{
    put(alloc, &mut wiring.net_of, &circuit.net_of)?;
    put(alloc, &mut wiring.contacts, circuit.contacts)?;
    put(alloc, &mut wiring.resistors, circuit.resistors)?;
    put(alloc, &mut wiring.first_pin, &[0])?;
    put(alloc, &mut wiring.chip, &[false])
}

fn wiring_of(alloc: Global, circuit: &Circuit) -> Result<Wiring, OutOfMemory>
    ensures pins { IfOk result (λ w. length w.net_of ≡ 3) }
    ensures contacts { IfOk result (λ w. w.contacts ≡ circuit.now.contacts.now) }
{
    let mut wiring = Wiring {
        nets: 3,
        net_of: List::new(alloc),
        contacts: List::new(alloc),
        resistors: List::new(alloc),
        first_pin: List::new(alloc),
        chip: List::new(alloc),
    };
    match fill(alloc, &mut wiring, circuit) {
        Ok(()) => Ok(wiring),
        Err(AllocError) => {
            drop(wiring);
            Err(OutOfMemory)
        }
    }
}

fn set_contacts(nets: &mut Nets, closed: &[bool])
    requires { length closed.now ≡ length nets.old.wiring.contacts }
    ensures { nets.new.wiring ≡ nets.old.wiring }
{
    for contact in 0..closed.len() {
        nets.set_contact(contact, closed[contact]);
    }
}

/// Whether the nets that are told to have changed are those whose levels differ.
fn tells_changes(before: &[Level], now: &[Level], changed: &[u16]) -> bool {
    for (net, (old, new)) in before.iter().zip(now).enumerate() {
        if (old != new) != changed.iter().any(|n| *n as usize == net) {
            return false;
        }
    }
    true
}

fn set_drives(nets: &mut Nets, drives: [Drive; 3])
    requires { length nets.old.wiring.net_of ≡ 3 }
    ensures { nets.new.wiring ≡ nets.old.wiring }
{
    nets.set_drive(0, drives[0]);
    nets.set_drive(1, drives[1]);
    nets.set_drive(2, drives[2]);
}

/// Resolves other levels than those of the drives.
fn resolve_others(nets: &mut Nets, closed: &[bool], drives: [Drive; 3])
    requires pins { length nets.old.wiring.net_of ≡ 3 }
    requires contacts { length closed.now ≡ length nets.old.wiring.contacts }
    ensures { nets.new.wiring ≡ nets.old.wiring }
{
    set_contacts(nets, closed);
    set_drives(nets, [drives[1], drives[0], drives[2]]);
    nets.resolve_marked();
    if closed.len() > 0 {
        nets.set_contact(0, !closed[0]);
        nets.resolve_marked();
        nets.set_contact(0, closed[0]);
    }
}

/// Whether the drives give these levels, and the nets that are told to have changed are those whose levels differ.
fn gives(
    alloc: Global,
    nets: &mut Nets,
    closed: &[bool],
    drives: [Drive; 3],
    levels: &[Level],
) -> Result<bool, OutOfMemory>
    requires { length nets.old.wiring.net_of ≡ 3 }
{
    let before = list_of(alloc, nets.levels())?;
    set_drives(nets, drives);
    nets.resolve_marked();
    Ok(
        nets.levels() == levels
            && nets.drives() == drives.as_slice()
            && nets.closed() == closed
            && tells_changes(before.as_slice(), levels, nets.changed()),
    )
}

/// The levels of nets 0 to 2 for these drives, though other levels were resolved before; None where they are not those
/// of the plain program, or the nets that are told to have changed are not those whose levels differ.
fn resolved(
    alloc: Global,
    circuit: &Circuit,
    drives: [Drive; 3],
) -> Result<Option<List<Level>>, OutOfMemory> {
    let wiring = wiring_of(alloc, circuit)?;
    resolved_on(alloc, wiring, circuit.closed, drives)
}

fn resolved_on(
    alloc: Global,
    wiring: Wiring,
    closed: &[bool],
    drives: [Drive; 3],
) -> Result<Option<List<Level>>, OutOfMemory>
    requires { length wiring.net_of ≡ 3 }
{
    if !has_valid_nets(&wiring) || closed.len() != wiring.contacts.len() {
        return Ok(None);
    }
    let plain = plain_levels(alloc, &wiring, &drives, closed)?;
    let same = resolves(alloc, wiring, closed, drives, plain.as_slice())?;
    Ok(if same { Some(plain) } else { None })
}

fn resolves(
    alloc: Global,
    wiring: Wiring,
    closed: &[bool],
    drives: [Drive; 3],
    levels: &[Level],
) -> Result<bool, OutOfMemory>
    requires valid { IsWiring wiring }
    requires pins { length wiring.net_of ≡ 3 }
    requires contacts { length closed.now ≡ length wiring.contacts }
{
    let mut nets = Nets::new(alloc, wiring)?;
    resolve_others(&mut nets, closed, drives);
    let given = gives(alloc, &mut nets, closed, drives, levels);
    drop(nets);
    given
}

/// Nets whose levels were worked by hand.
fn play_worked(rt: &HostRuntime) -> io::Result<u32> {
    let one_net = Circuit {
        net_of: [0, 0, 0],
        contacts: &[],
        resistors: &[],
        closed: &[],
    };
    let to_each_supply = Circuit {
        net_of: [0, 1, 2],
        contacts: &[],
        resistors: &[(0, 1), (0, 2)],
        closed: &[],
    };
    let in_series = Circuit {
        net_of: [0, 1, 2],
        contacts: &[],
        resistors: &[(0, 1), (1, 2)],
        closed: &[],
    };
    let mut count: u32 = 0;
    for (circuit, drives, levels) in [
        (
            &one_net,
            [Drive::High, Drive::Low, Drive::Z],
            [Level::X, Level::Z, Level::Z],
        ),
        (
            &one_net,
            [Drive::Wiper(700), Drive::Z, Drive::Z],
            [Level::Wiped(700), Level::Z, Level::Z],
        ),
        (
            &one_net,
            [Drive::Wiper(700), Drive::PullLow, Drive::Z],
            [Level::X, Level::Z, Level::Z],
        ),
        (
            &one_net,
            [Drive::Wiper(100), Drive::PullLow, Drive::Z],
            [Level::Low, Level::Z, Level::Z],
        ),
        (
            &one_net,
            [Drive::Wiper(700), Drive::Low, Drive::Z],
            [Level::Low, Level::Z, Level::Z],
        ),
        (
            &to_each_supply,
            [Drive::Z, Drive::High, Drive::Low],
            [Level::X, Level::High, Level::Low],
        ),
        (
            &in_series,
            [Drive::Z, Drive::Z, Drive::High],
            [Level::High, Level::High, Level::High],
        ),
        (
            &in_series,
            [Drive::PullHigh, Drive::Low, Drive::Z],
            [Level::X, Level::Low, Level::Low],
        ),
    ] {
        count = count.saturating_add(1);
        play_one(rt, circuit, drives, levels.as_slice())?;
    }
    Ok(count)
}

/// Plays nets that were worked by hand.
fn play_one(
    rt: &HostRuntime,
    circuit: &Circuit,
    drives: [Drive; 3],
    levels: &[Level],
) -> io::Result<()> {
    match resolved(rt.alloc(), circuit, drives) {
        Ok(Some(found)) if found.as_slice() == levels => Ok(()),
        Ok(_) => println!(rt; "not as worked by hand: {drives:?}"),
        Err(OutOfMemory) => println!(rt; "out of memory"),
    }
}

/// Plays nets against the plain program.
fn compare(rt: &HostRuntime, circuit: &Circuit, drives: [Drive; 3]) -> io::Result<()> {
    let [a, b, c] = drives;
    match resolved(rt.alloc(), circuit, drives) {
        Ok(Some(_)) => Ok(()),
        Ok(None) => println!(rt; "not as the plain program has it: {a:?} {b:?} {c:?}"),
        Err(OutOfMemory) => println!(rt; "out of memory"),
    }
}

/// All drives of three pins.
fn play_all(rt: &HostRuntime, circuit: &Circuit) -> io::Result<u32> {
    let mut count: u32 = 0;
    for a in DRIVES {
        for b in DRIVES {
            for c in DRIVES {
                count = count.saturating_add(1);
                compare(rt, circuit, [a, b, c])?;
            }
        }
    }
    Ok(count)
}

/// Prints how many circuits there are, and those that come out otherwise.
pub(crate) fn play(rt: &HostRuntime) -> io::Result<()> {
    let mut count = play_worked(rt)?;
    for (net_of, contacts, resistors, closed) in [
        ([0, 0, 0], [].as_slice(), [].as_slice(), [].as_slice()),
        ([0, 0, 1], &[], &[(1, 0)], &[]),
        ([0, 1, 2], &[], &[(0, 1), (1, 2)], &[]),
        ([0, 1, 2], &[(0, 1)], &[(1, 2)], &[true]),
        ([0, 1, 2], &[(0, 1)], &[(1, 2)], &[false]),
        ([0, 1, 2], &[(2, 1), (1, 2)], &[(0, 1)], &[false, true]),
    ] {
        let circuit = Circuit {
            net_of,
            contacts,
            resistors,
            closed,
        };
        count = count.saturating_add(play_all(rt, &circuit)?);
    }
    println!(rt; "{count} circuits")
}
