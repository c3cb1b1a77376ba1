//! Nets that no contact and no resistor connects with others: their levels are found alone.
ghost use Rattle.std.specs.Prelude.{◌≡◌, ℕ, ◌<◌, List, length, map, Some, slice_get, IfOk, Bool, false};
ghost use Rattle.sim_base.specs.declared.signal.Drive.{Drive};
ghost use Rattle.net_resolve.specs.WholeView.{levels_of};
ghost use Rattle.net_resolve.specs.Marked.{has};
ghost use Rattle.net_resolve.specs.Subcircuits.{SubcircuitView, Lacks, FitsIn, own_whole};
ghost use Rattle.net_resolve.specs.Resolutions.{IsResolution, AreResolutions, ArePlaces, IsBy, last_of};
ghost use Rattle.net_resolve.specs.Shown.{AreShown, Moves};

use crate::resolution::{Kept, Resolution};
use crate::room::{all_z, no_drives, no_flags};
use crate::shown::{Shown, put_pins};
use crate::whole::Whole;
use sim_base::{Drive, Level, OutOfMemory};
use std::alloc::Global;
use std::marker::Model;

/// Some nets of a board, which are numbered anew from 0, with the pins, contacts and resistors on them.
#[derive(Drop)]
pub(crate) struct Subcircuit {
    /// The number of each net, each pin and each contact on the board.
    nets: Vec<usize>,
    pins: Vec<usize>,
    contacts: Vec<usize>,
    whole: Whole,
    kept: Kept,
}

impl Model for Subcircuit {
    ghost use Rattle.std.specs.Prelude.{◌≡◌, length, vec_len};
    ghost use Rattle.net_resolve.specs.Subcircuits.{SubcircuitView};
    ghost use Rattle.net_resolve.specs.Resolutions.{AreResolutions};

    ghost Value = { SubcircuitView };

    ghost view = { λ a. record {
      nets = a.nets.items;
      pins = a.pins.items;
      contacts = a.contacts.items;
      own_nets = a.whole.net_of;
      own_contacts = a.whole.contacts;
      own_resistors = a.whole.resistors;
    } };

    ghost invariant = { λ a. record {
      nets_long : vec_len a.nets ≡ a.whole.nets;
      pins_long : vec_len a.pins ≡ length a.whole.net_of;
      contacts_long : vec_len a.contacts ≡ length a.whole.contacts;
      kept : AreResolutions a.whole a.kept;
    } };
}

/// Takes the items at some places.
fn gather<T: Copy>(from: &[T], places: &[usize], into: &mut [T])
    requires places { (j k : ℕ) → slice_get places.now j ≡ Some k → k < length from.now }
    requires room { length into.old ≡ length places.now }
    ensures { map Some into.new ≡ map (slice_get from.now) places.now }
{
    for j in 0..places.len() {
        into[j] = from[places[j]];
    }
}

/// The levels of some nets where no pin drives and no contact is closed.
fn first_resolution(
    alloc: Global,
    nets: usize,
    pins: usize,
    contacts: usize,
    whole: &mut Whole,
) -> Result<Resolution, OutOfMemory>
    requires nets { nets ≡ whole.old.nets }
    requires pins { pins ≡ length whole.old.net_of }
    requires contacts { contacts ≡ length whole.old.contacts }
    ensures same { whole.new ≡ whole.old }
    ensures found { IfOk result (λ r. IsResolution whole.old r) }
{
    let drives = no_drives(alloc, pins)?;
    let closed = no_flags(alloc, contacts)?;
    let mut levels = all_z(alloc, nets)?;
    whole.resolve(&drives, &closed, &mut levels);
    Ok(Resolution {
        drives,
        closed,
        levels,
    })
}

/// Resolves some nets of a board by the drives and contacts at some places.
#[inline(never)]
fn resolve_at(
    drives: &[Drive],
    closed: &[bool],
    pins: &[usize],
    contacts: &[usize],
    found: &mut Resolution,
    whole: &mut Whole,
)
    requires places { ArePlaces whole.old drives.now closed.now pins.now contacts.now }
    requires found { IsResolution whole.old found.old }
    ensures same { whole.new ≡ whole.old }
    ensures found { IsResolution whole.old found.new }
    ensures by { IsBy drives.now closed.now pins.now contacts.now found.new }
{
    gather(drives, pins, &mut found.drives);
    gather(closed, contacts, &mut found.closed);
    whole.resolve(&found.drives, &found.closed, &mut found.levels);
}

/// Resolves some nets of a board by the drives and contacts at some places, where the resolution is one by others.
#[inline(always)]
fn resolve_unless_known(
    drives: &[Drive],
    closed: &[bool],
    pins: &[usize],
    contacts: &[usize],
    found: &mut Resolution,
    whole: &mut Whole,
)
    requires places { ArePlaces whole.old drives.now closed.now pins.now contacts.now }
    requires found { IsResolution whole.old found.old }
    ensures same { whole.new ≡ whole.old }
    ensures found { IsResolution whole.old found.new }
    ensures by { IsBy drives.now closed.now pins.now contacts.now found.new }
{
    if !found.holds(drives, closed, pins, contacts) {
        resolve_at(drives, closed, pins, contacts, found, whole);
    }
}

/// Turns to the other one of two resolutions, which is found anew where it is one by other drives and contacts.
#[inline(always)]
fn resolve_other(
    drives: &[Drive],
    closed: &[bool],
    pins: &[usize],
    contacts: &[usize],
    kept: &mut Kept,
    whole: &mut Whole,
)
    requires places { ArePlaces whole.old drives.now closed.now pins.now contacts.now }
    requires kept { AreResolutions whole.old kept.old }
    ensures same { whole.new ≡ whole.old }
    ensures kept { AreResolutions whole.old kept.new }
    ensures by { IsBy drives.now closed.now pins.now contacts.now (last_of kept.new) }
{
    kept.flipped = !kept.flipped;
    if kept.flipped {
        resolve_unless_known(drives, closed, pins, contacts, &mut kept.second, whole);
    } else {
        resolve_unless_known(drives, closed, pins, contacts, &mut kept.first, whole);
    }
}

impl Subcircuit {
    pub(crate) fn new(
        alloc: Global,
        nets: &[usize],
        pins: &[usize],
        contacts: &[usize],
        whole: Whole,
    ) -> Result<Subcircuit, OutOfMemory>
        requires nets { length nets.now ≡ whole.nets }
        requires pins { length pins.now ≡ length whole.net_of }
        requires contacts { length contacts.now ≡ length whole.contacts }
        ensures { IfOk result (λ s. s ≡ record {
          nets = nets.now;
          pins = pins.now;
          contacts = contacts.now;
          own_nets = whole.net_of;
          own_contacts = whole.contacts;
          own_resistors = whole.resistors;
        }) }
    {
        let mut whole = whole;
        let first = first_resolution(alloc, nets.len(), pins.len(), contacts.len(), &mut whole)?;
        let second = first_resolution(alloc, nets.len(), pins.len(), contacts.len(), &mut whole)?;
        let nets = Vec::from_slice(alloc, nets)?;
        let pins = Vec::from_slice(alloc, pins)?;
        let contacts = Vec::from_slice(alloc, contacts)?;
        let kept = Kept {
            first,
            second,
            flipped: false,
        };
        Ok(Subcircuit {
            nets,
            pins,
            contacts,
            whole,
            kept,
        })
    }

    /// Finds the levels of its nets, by what the pins of the board drive and which contacts are closed, and shows them.
    #[inline(always)]
    pub(crate) fn resolve(
        &mut self,
        drives: &[Drive],
        closed: &[bool],
        net_of: &[u16],
        shown: &mut Shown,
    )
        requires fits { FitsIn net_of.now (length drives.now) (length closed.now) (length shown.old.levels.items) self.old }
        requires fresh { (j n : ℕ) → slice_get self.old.nets j ≡ Some n → has shown.old.changed.marked n ≡ false }
        requires shown { AreShown net_of.now shown.old }
        ensures same { self.new ≡ self.old }
        ensures put { (own_closed : List Bool) (own_drives : List Drive) →
            map Some own_closed ≡ map (slice_get closed.now) self.old.contacts →
            map Some own_drives ≡ map (slice_get drives.now) self.old.pins →
            (j n : ℕ) → slice_get self.old.nets j ≡ Some n →
            slice_get shown.new.levels.items n ≡ slice_get (levels_of (own_whole self.old) own_closed own_drives) j }
        ensures others { (n : ℕ) → Lacks self.old.nets n → slice_get shown.new.levels.items n ≡ slice_get shown.old.levels.items n }
        ensures shown { AreShown net_of.now shown.new }
        ensures moves { Moves shown.old.levels.items shown.new.levels.items shown.old.changed shown.new.changed }
    {
        resolve_other(
            drives,
            closed,
            &self.pins,
            &self.contacts,
            &mut self.kept,
            &mut self.whole,
        );
        shown.put_levels(&self.kept.last().levels, &self.nets);
        put_pins(&self.pins, net_of, &shown.levels, &mut shown.pin_levels);
    }
}
