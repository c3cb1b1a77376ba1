//! Nets as the definition sees them.
ghost use Rattle.std.specs.Prelude.{◌≡◌, ℕ, ◌<◌, ◌≤◌, ◌&&◌, ◌||◌, List, [], ◌∷◌, ◌++◌, length, map, filter, not, if◌then◌else◌, IfOk, OnOk, Some, slice_get};
ghost use Rattle.std.specs.List.{list_any, flat_map, zip};
ghost use Rattle.sim_base.specs.Signal.{value_of, strong_of, is_weak};
ghost use Rattle.board_model.specs.Walks.{any_below, below, walk_within};
ghost use Rattle.board_model.specs.Nets.{joins, joined_by};
ghost use Rattle.board_model.specs.Resolve.{is_value, level_of_values, level_of_drives, contact_joins, is_one, has_strong, is_driven, passes, reaches, strong_values, collected, level_of, resolve};
ghost use Rattle.net_reference.specs.Sights.{over};

use sim_base::{Drive, Level, List, OutOfMemory, Wiring};
use std::alloc::{AllocError, Global};

/// Nets with what their pins drive and which contacts are closed.
#[derive(Clone, Copy)]
pub(crate) struct Sight<'a> {
    nets: u16,
    net_of: &'a [u16],
    contacts: &'a [(u16, u16)],
    resistors: &'a [(u16, u16)],
    closed: &'a [bool],
    drives: &'a [Drive],
}

fn is_pair_of(pair: (u16, u16), n: u16, m: u16) -> bool
    ensures { result ≡ joins pair n m }
{
    ((pair.0 == n) & (pair.1 == m)) | ((pair.1 == n) & (pair.0 == m))
}

fn is_joined(pairs: &[(u16, u16)], n: u16, m: u16) -> bool
    ensures { result ≡ joined_by pairs.now n m }
{
    let mut found = false;
    for pair in pairs {
        found = found | is_pair_of(*pair, n, m);
    }
    found
}

fn is_closed_over(contacts: &[(u16, u16)], closed: &[bool], n: u16, m: u16) -> bool
    requires { length closed.now ≡ length contacts.now }
    ensures { result ≡ contact_joins contacts.now closed.now n m }
{
    let mut found = false;
    for i in 0..contacts.len() {
        found = found | (closed[i] & is_pair_of(contacts[i], n, m));
    }
    found
}

fn has_value(value: bool, drive: Drive) -> bool
    ensures { result ≡ is_value value (value_of drive) }
{
    match drive {
        Drive::Z => false,
        Drive::High | Drive::PullHigh => value,
        Drive::Low | Drive::PullLow => !value,
        Drive::Wiper(position) => value == (position >= 512),
    }
}

fn has_strong_value(value: bool, drive: Drive) -> bool
    ensures { result ≡ is_value value (strong_of drive) }
{
    match drive {
        Drive::High => value,
        Drive::Low => !value,
        Drive::Z | Drive::PullLow | Drive::PullHigh | Drive::Wiper(_) => false,
    }
}

fn is_drive_weak(drive: Drive) -> bool
    ensures { result ≡ is_weak drive }
{
    matches!(drive, Drive::PullLow | Drive::PullHigh | Drive::Wiper(_))
}

fn level_of_value(high: bool, low: bool) -> Level
    ensures { result ≡ level_of_values high low }
{
    match (high, low) {
        (true, true) => Level::X,
        (true, false) => Level::High,
        (false, true) => Level::Low,
        (false, false) => Level::Z,
    }
}

fn has_any(value: bool, drives: &[Drive]) -> bool
    ensures { result ≡ list_any (λ d. is_value value (value_of d)) drives.now }
{
    let mut found = false;
    for drive in drives {
        found = found | has_value(value, *drive);
    }
    found
}

fn push_if(there: bool, drive: Drive, into: &mut Vec<Drive>) -> Result<(), AllocError>
    ensures { OnOk result (into.new.items ≡ into.old.items ++ (if there then drive ∷ [] else [])) }
{
    if there {
        into.push(drive)?;
    }
    Ok(())
}

fn level_of_all(drives: &[Drive]) -> Level
    ensures { result ≡ level_of_drives drives.now }
{
    match drives {
        [Drive::Wiper(position)] => Level::Wiped(*position),
        _ => level_of_value(has_any(true, drives), has_any(false, drives)),
    }
}

impl<'a> Sight<'a> {
    /// Whether at most k steps over closed contacts lead from n to m.
    fn walks_contacts(&self, k: u16, n: u16, m: u16) -> bool
        requires { length self.now.closed.now ≡ length self.now.contacts.now }
        ensures { result ≡ walk_within self.now.nets (contact_joins self.now.contacts.now self.now.closed.now) k n m }
    {
        if k == 0 {
            return n == m;
        }
        let mut found = self.walks_contacts(k - 1, n, m);
        for j in 0..self.nets {
            let there = self.walks_contacts(k - 1, n, j);
            found = found | (there & is_closed_over(self.contacts, self.closed, j, m));
        }
        found
    }

    /// Whether the net has a strong value.
    fn has_strong_here(&self, n: u16, value: bool) -> bool
        requires closed { length self.now.closed.now ≡ length self.now.contacts.now }
        requires drives { length self.now.drives.now ≡ length self.now.net_of.now }
        ensures { result ≡ over self.now has_strong n value }
    {
        let mut found = false;
        for i in 0..self.net_of.len() {
            let one = self.walks_contacts(self.nets, n, self.net_of[i]);
            found = found | (one & has_strong_value(value, self.drives[i]));
        }
        found
    }

    fn is_driven_here(&self, n: u16) -> bool
        requires closed { length self.now.closed.now ≡ length self.now.contacts.now }
        requires drives { length self.now.drives.now ≡ length self.now.net_of.now }
        ensures { result ≡ over self.now is_driven n }
    {
        self.has_strong_here(n, true) | self.has_strong_here(n, false)
    }

    /// Whether one step leads from a net without a strong value to another.
    fn passes_to(&self, n: u16, m: u16) -> bool
        requires closed { length self.now.closed.now ≡ length self.now.contacts.now }
        requires drives { length self.now.drives.now ≡ length self.now.net_of.now }
        ensures { result ≡ over self.now passes n m }
    {
        !self.is_driven_here(n)
            & (is_closed_over(self.contacts, self.closed, n, m) | is_joined(self.resistors, n, m))
    }

    /// Whether at most k such steps lead from n to m.
    fn walks(&self, k: u16, n: u16, m: u16) -> bool
        requires closed { length self.now.closed.now ≡ length self.now.contacts.now }
        requires drives { length self.now.drives.now ≡ length self.now.net_of.now }
        ensures { result ≡ walk_within self.now.nets (over self.now passes) k n m }
    {
        if k == 0 {
            return n == m;
        }
        let mut found = self.walks(k - 1, n, m);
        for j in 0..self.nets {
            let there = self.walks(k - 1, n, j);
            found = found | (there & self.passes_to(j, m));
        }
        found
    }

    /// The strong values of the nets that are reached.
    fn collect_strong(&self, n: u16, into: &mut Vec<Drive>) -> Result<(), AllocError>
        requires closed { length self.now.closed.now ≡ length self.now.contacts.now }
        requires drives { length self.now.drives.now ≡ length self.now.net_of.now }
        ensures { OnOk result (into.new.items ≡ into.old.items ++ flat_map (λ m. if over self.now reaches n m
            then over self.now strong_values m else []) (below self.now.nets)) }
    {
        for m in 0..self.nets {
            let reached = self.walks(self.nets, n, m);
            push_if(reached & self.has_strong_here(m, true), Drive::High, into)?;
            push_if(reached & self.has_strong_here(m, false), Drive::Low, into)?;
        }
        Ok(())
    }

    /// The weak drives on the nets that are reached and have no strong value.
    fn collect_weak(&self, n: u16, into: &mut Vec<Drive>) -> Result<(), AllocError>
        requires closed { length self.now.closed.now ≡ length self.now.contacts.now }
        requires drives { length self.now.drives.now ≡ length self.now.net_of.now }
        ensures { OnOk result (into.new.items ≡ into.old.items ++ map (λ p. p.1) (filter (λ p. over self.now reaches n p.0 && not (over self.now is_driven p.0) && is_weak p.1)
            (zip self.now.net_of.now self.now.drives.now))) }
    {
        for i in 0..self.net_of.len() {
            let net = self.net_of[i];
            let counts = self.walks(self.nets, n, net) & !self.is_driven_here(net);
            push_if(counts & is_drive_weak(self.drives[i]), self.drives[i], into)?;
        }
        Ok(())
    }

    /// The level of net n.
    fn level_at(&self, alloc: Global, n: u16) -> Result<Level, AllocError>
        requires closed { length self.now.closed.now ≡ length self.now.contacts.now }
        requires drives { length self.now.drives.now ≡ length self.now.net_of.now }
        ensures { IfOk result (λ l. l ≡ over self.now level_of n) }
    {
        if self.is_driven_here(n) {
            return Ok(level_of_value(
                self.has_strong_here(n, true),
                self.has_strong_here(n, false),
            ));
        }
        let mut collected = Vec::new(alloc);
        self.collect_strong(n, &mut collected)?;
        self.collect_weak(n, &mut collected)?;
        Ok(level_of_all(&collected))
    }
}

/// The levels of all nets.
pub fn plain_levels(
    alloc: Global,
    wiring: &Wiring,
    drives: &[Drive],
    closed: &[bool],
) -> Result<List<Level>, OutOfMemory>
    requires closed { length closed.now ≡ length wiring.now.contacts }
    requires drives { length drives.now ≡ length wiring.now.net_of }
    ensures { IfOk result (λ ls. ls ≡ resolve wiring.now.nets wiring.now.net_of wiring.now.contacts wiring.now.resistors closed.now drives.now) }
{
    let sight = Sight {
        nets: wiring.nets,
        net_of: wiring.net_of.as_slice(),
        contacts: wiring.contacts.as_slice(),
        resistors: wiring.resistors.as_slice(),
        closed,
        drives,
    };
    let mut levels = List::new(alloc);
    for n in 0..wiring.nets {
        levels.push(sight.level_at(alloc, n)?)?;
    }
    Ok(levels)
}
