//! The nets are told what parts drive and connect.
ghost use Rattle.std.specs.Prelude.{◌≡◌, ◌≢◌, ℕ, ◌+◌, ◌^◌, ◌<◌, ◌≤◌, length, map, take, true, false, Some, slice_get, slice_index};
ghost use Rattle.part_law.specs.Spans.{IsIn};
ghost use Rattle.board_model.specs.Board.{drives_of, contacts_of};
ghost use Rattle.board_run.specs.ReadingView.{HasAt, Put};
ghost use Rattle.board_run.specs.Engine.{wiring_of, MayTell, ToldOf};

use crate::engine::Engine;
use crate::gather::is_same_drive;
use net_resolve::Nets;
use part_law::{Part, Span};
use sim_base::Drive;

/// Whether a pin drives something else than the nets were told.
#[inline]
fn drives_other(nets: &Nets, pin: usize, drive: Drive) -> bool
    requires within { pin < length nets.now.wiring.net_of }
    ensures same { result ≡ false → slice_get nets.now.drives pin ≡ Some drive }
    ensures other { result ≡ true → slice_get nets.now.drives pin ≢ Some drive }
{
    !is_same_drive(nets.drives()[pin], drive)
}

/// Whether a contact is closed where the nets were told that it is open, or the other way.
#[inline]
fn joins_other(nets: &Nets, contact: usize, closed: bool) -> bool
    requires within { contact < length nets.now.wiring.contacts }
    ensures same { result ≡ false → slice_get nets.now.closed contact ≡ Some closed }
    ensures other { result ≡ true → slice_get nets.now.closed contact ≢ Some closed }
{
    nets.closed()[contact] != closed
}

/// Sets what the pins of a span drive, and tells whether one drives something else; the part's pins begin at a place.
#[inline(always)]
fn set_pins<P: Part>(part: &P, span: Span, at: usize, nets: &mut Nets) -> bool
    requires room { at + length (P.machine.drives (P.state part.now)) ≤ length nets.old.wiring.net_of }
    requires few { length nets.old.wiring.net_of < 2 ^ 63 }
    requires long { length nets.old.drives ≡ length nets.old.wiring.net_of }
    requires others { (j : ℕ) → j < length (P.machine.drives (P.state part.now)) → j < 255 → ¬ IsIn span j
        → slice_get nets.old.drives (at + j) ≡ slice_get (P.machine.drives (P.state part.now)) j }
    ensures put { Put at (length (P.machine.drives (P.state part.now))) (P.machine.drives (P.state part.now)) nets.old.drives nets.new.drives }
    ensures same { result ≡ false → HasAt at (P.machine.drives (P.state part.now)) nets.old.drives }
    ensures other { result ≡ true → HasAt at (P.machine.drives (P.state part.now)) nets.old.drives → ⊥ }
    ensures rest { nets.new ≡ record nets.old { drives = nets.new.drives } }
{
    let to = span.to.min(part.pins());
    let from = span.from.min(to);
    let mut changed = false;
    for pin in from..to {
        let drive = part.drive(pin);
        if drives_other(nets, at + pin as usize, drive) {
            nets.set_drive(at + pin as usize, drive);
            changed = true;
        }
    }
    changed
}

/// Sets which of a part's contacts are closed, from a place on, and tells whether one changed.
fn set_ports<P: Part>(part: &P, at: usize, nets: &mut Nets) -> bool
    requires room { at + length (P.machine.contacts (P.state part.now)) ≤ length nets.old.wiring.contacts }
    requires few { length nets.old.wiring.contacts < 2 ^ 63 }
    requires long { length nets.old.closed ≡ length nets.old.wiring.contacts }
    ensures put { Put at (length (P.machine.contacts (P.state part.now))) (P.machine.contacts (P.state part.now)) nets.old.closed nets.new.closed }
    ensures same { result ≡ false → HasAt at (P.machine.contacts (P.state part.now)) nets.old.closed }
    ensures other { result ≡ true → HasAt at (P.machine.contacts (P.state part.now)) nets.old.closed → ⊥ }
    ensures rest { nets.new ≡ record nets.old { closed = nets.new.closed } }
{
    let contacts = part.contacts();
    let mut changed = false;
    for i in 0..contacts {
        let closed = part.contact(i);
        changed = changed | joins_other(nets, at + i as usize, closed);
        nets.set_contact(at + i as usize, closed);
    }
    changed
}

/// Sets all that a part drives and connects.
#[inline]
fn tell_part<P: Part>(part: &P, pin: usize, contact: usize, nets: &mut Nets)
    requires pins { pin + length (P.machine.drives (P.state part.now)) ≤ length nets.old.wiring.net_of }
    requires contacts { contact + length (P.machine.contacts (P.state part.now)) ≤ length nets.old.wiring.contacts }
    requires few { (length nets.old.wiring.net_of < 2 ^ 63) × (length nets.old.wiring.contacts < 2 ^ 63) }
    requires drives_long { length nets.old.drives ≡ length nets.old.wiring.net_of }
    requires closed_long { length nets.old.closed ≡ length nets.old.wiring.contacts }
    ensures drives { Put pin (length (P.machine.drives (P.state part.now))) (P.machine.drives (P.state part.now)) nets.old.drives nets.new.drives }
    ensures closed { Put contact (length (P.machine.contacts (P.state part.now))) (P.machine.contacts (P.state part.now)) nets.old.closed nets.new.closed }
    ensures rest { nets.new ≡ record nets.old { drives = nets.new.drives; closed = nets.new.closed } }
{
    set_pins(part, Span::all(), pin, nets);
    set_ports(part, contact, nets);
}

/// Tells what all parts drive and connect.
pub(crate) fn tell_all<P: Part>(parts: &[P], nets: &mut Nets)
    requires pins { length nets.old.wiring.net_of ≡ length (drives_of P.machine (map P.state parts.now)) }
    requires contacts { length nets.old.wiring.contacts ≡ length (contacts_of P.machine (map P.state parts.now)) }
    requires few { (length nets.old.wiring.net_of < 2 ^ 63) × (length nets.old.wiring.contacts < 2 ^ 63) }
    requires drives_long { length nets.old.drives ≡ length nets.old.wiring.net_of }
    requires closed_long { length nets.old.closed ≡ length nets.old.wiring.contacts }
    ensures drives { nets.new.drives ≡ drives_of P.machine (map P.state parts.now) }
    ensures closed { nets.new.closed ≡ contacts_of P.machine (map P.state parts.now) }
    ensures rest { nets.new ≡ record nets.old { drives = nets.new.drives; closed = nets.new.closed } }
{
    let mut pin = 0;
    let mut contact = 0;
    for i in 0..parts.len() {
        let pins = parts[i].pins() as usize;
        let contacts = parts[i].contacts() as usize;
        tell_part(&parts[i], pin, contact, nets);
        pin += pins;
        contact += contacts;
    }
}

/// Where the contacts of part `i` begin.
fn first_contact<P: Part>(parts: &[P], i: usize) -> usize
    requires within { i ≤ length parts.now }
    requires few { length (contacts_of P.machine (map P.state parts.now)) < 2 ^ 63 }
    ensures { result ≡ length (contacts_of P.machine (take i (map P.state parts.now))) }
{
    let mut at = 0;
    for k in 0..i {
        at += parts[k].contacts() as usize;
    }
    at
}

/// Tells which contacts of part `i` are closed, where it has any, and answers whether one changed.
#[inline]
fn tell_contacts<P: Part>(parts: &[P], i: usize, nets: &mut Nets) -> bool
    requires within { i < length parts.now }
    requires contacts { length nets.old.wiring.contacts ≡ length (contacts_of P.machine (map P.state parts.now)) }
    requires few { length nets.old.wiring.contacts < 2 ^ 63 }
    requires long { length nets.old.closed ≡ length nets.old.wiring.contacts }
    ensures put { (p : _) → slice_get parts.now i ≡ Some p → Put (length (contacts_of P.machine (take i (map P.state parts.now))))
        (length (P.machine.contacts (P.state p))) (P.machine.contacts (P.state p)) nets.old.closed nets.new.closed }
    ensures same { (p : _) → slice_get parts.now i ≡ Some p → result ≡ false
        → HasAt (length (contacts_of P.machine (take i (map P.state parts.now)))) (P.machine.contacts (P.state p)) nets.old.closed }
    ensures other { (p : _) → slice_get parts.now i ≡ Some p → result ≡ true
        → HasAt (length (contacts_of P.machine (take i (map P.state parts.now)))) (P.machine.contacts (P.state p)) nets.old.closed → ⊥ }
    ensures rest { nets.new ≡ record nets.old { closed = nets.new.closed } }
{
    if parts[i].contacts() != 0 {
        let contact = first_contact(parts, i);
        set_ports(&parts[i], contact, nets)
    } else {
        false
    }
}

impl<P: Part> Engine<P> {
    /// Tells the nets what part `i`, whose pins begin at a place, drives and connects, where its last wake may have changed
    /// it, and answers whether it did.
    #[inline(always)]
    pub(crate) fn tell(&mut self, touched: bool, i: usize, first: usize) -> bool
        requires within { i < length self.old.parts }
        requires first { first ≡ slice_index (wiring_of self.old).first_pin i }
        requires may { MayTell P.Part self.old i touched }
        ensures { ToldOf P.Part self.old self.new i result }
    {
        if touched {
            let _net_of = self.reading.wiring().net_of.as_slice(); // lists that are lent have lengths that numbers hold
            let _contacts = self.reading.wiring().contacts.as_slice();
            let parts = self.parts.as_slice();
            let reading = &mut self.reading;
            let span = parts[i].moved();
            let pins = set_pins(&parts[i], span, first, &mut reading.nets);
            let contacts = tell_contacts(parts, i, &mut reading.nets);
            pins | contacts
        } else {
            false
        }
    }
}
