//! Nets that are resolved as a whole.
ghost use Rattle.std.specs.Prelude.{◌≡◌, ℕ, ◌<◌, ◌≤◌, List, length, Some, slice_get, IfOk, vec_len};
ghost use Rattle.net_resolve.specs.WholeView.{WholeView, whole_with, levels_of};
ghost use Rattle.net_resolve.specs.Groups.{AreGroups};
ghost use Rattle.board_model.specs.Pairs.{ArePairs};

use crate::levels::{Room, group_nets};
use crate::room::{no_flags, zeros};
use sim_base::{Drive, Level, OutOfMemory};
use std::alloc::Global;
use std::marker::Model;

/// Nets with what joins them, and room to find their levels in.
#[derive(Drop)]
pub(crate) struct Whole {
    net_of: Vec<u16>,
    contacts: Vec<(u16, u16)>,
    resistors: Vec<(u16, u16)>,
    /// Which contacts were closed when the nets were grouped.
    closed: Vec<bool>,
    /// The group of each net: a net of it that stands for all that closed contacts lead to.
    groups: Vec<u16>,
    room: Room,
}

impl Model for Whole {
    ghost use Rattle.std.specs.Prelude.{◌≡◌, ℕ, ◌<◌, ◌≤◌, length, Some, slice_get, vec_len};
    ghost use Rattle.board_model.specs.Pairs.{ArePairs};
    ghost use Rattle.net_resolve.specs.WholeView.{WholeView};
    ghost use Rattle.net_resolve.specs.Groups.{AreGroups};
    ghost use Rattle.net_resolve.specs.Rooms.{FitsRoom};

    ghost Value = { WholeView };

    ghost view = { λ a. record {
      nets = vec_len a.groups;
      net_of = a.net_of.items;
      contacts = a.contacts.items;
      resistors = a.resistors.items;
    } };

    ghost invariant = { λ a. record {
      few : vec_len a.groups ≤ 65536;
      pins_within : (k n : ℕ) → slice_get a.net_of.items k ≡ Some n → n < vec_len a.groups;
      contacts_within : ArePairs (vec_len a.groups) a.contacts.items;
      resistors_within : ArePairs (vec_len a.groups) a.resistors.items;
      grouped : AreGroups a.contacts.items a.closed.items a.groups.items;
      closed_long : vec_len a.closed ≡ vec_len a.contacts;
      room : FitsRoom (vec_len a.groups) (vec_len a.resistors) a.room;
    } };
}

/// Groups the nets again where other contacts are closed than before.
fn regroup(contacts: &[(u16, u16)], closed: &[bool], kept: &mut [bool], groups: &mut [u16])
    requires contacts { ArePairs (length groups.old) contacts.now }
    requires closed { length closed.now ≡ length contacts.now }
    requires kept { length kept.old ≡ length contacts.now }
    requires few { length groups.old ≤ 65536 }
    requires grouped { AreGroups contacts.now kept.old groups.old }
    ensures kept { kept.new ≡ closed.now }
    ensures grouped { AreGroups contacts.now closed.now groups.new }
{
    if &*kept != closed {
        kept.copy_from_slice(closed);
        group_nets(contacts, closed, groups);
    }
}

impl Whole {
    /// So many nets.
    pub(crate) fn new(
        alloc: Global,
        count: usize,
        net_of: Vec<u16>,
        contacts: Vec<(u16, u16)>,
        resistors: Vec<(u16, u16)>,
    ) -> Result<Whole, OutOfMemory>
        requires few { count ≤ 65536 }
        requires pins { (k n : ℕ) → slice_get net_of.items k ≡ Some n → n < count }
        requires contacts { ArePairs count contacts.items }
        requires resistors { ArePairs count resistors.items }
        ensures { IfOk result (λ n. n ≡ whole_with count net_of.items contacts.items resistors.items) }
    {
        let closed = no_flags(alloc, contacts.len())?;
        let mut groups = zeros(alloc, count)?;
        group_nets(&contacts, &closed, &mut groups);
        let room = Room::new(alloc, count, resistors.len())?;
        Ok(Whole {
            net_of,
            contacts,
            resistors,
            closed,
            groups,
            room,
        })
    }

    /// Finds the levels by what the pins drive and which contacts are closed.
    pub(crate) fn resolve(&mut self, drives: &[Drive], closed: &[bool], levels: &mut [Level])
        requires drives { length drives.now ≡ length self.old.net_of }
        requires closed { length closed.now ≡ length self.old.contacts }
        requires levels { length levels.old ≡ self.old.nets }
        ensures same { self.new ≡ self.old }
        ensures levels { levels.new ≡ levels_of self.old closed.now drives.now }
    {
        regroup(&self.contacts, closed, &mut self.closed, &mut self.groups);
        self.room.resolve(&self.net_of, drives, &self.resistors, &self.groups, levels);
    }
}
