//! The levels of all nets, from what the pins drive now.
ghost use Rattle.std.specs.Prelude.{◌≡◌, ℕ, ◌<◌, ◌≤◌, ◌&&◌, ◌==◌, List, length, map, Some, slice_get, slice_index, Bool, IfOk};
ghost use Rattle.std.specs.List.{zip};
ghost use Rattle.board_model.specs.Walks.{below};
ghost use Rattle.board_model.specs.Resolve.{contact_joins, resolve};
ghost use Rattle.sim_base.specs.declared.signal.Level.{Level};
ghost use Rattle.net_union_find.specs.Forest.{AreLabels, Joins};
ghost use Rattle.net_resolve.specs.Groups.{AreGroups};
ghost use Rattle.net_resolve.specs.Rooms.{FitsRoom};
ghost use Rattle.net_resolve.specs.Sums.{sum_at, added, strong_level, weak_level, is_loose, resistors_add};
ghost use Rattle.board_model.specs.Pairs.{ArePairs};

use crate::groups::put_bridges;
use crate::room::{all_z, no_flags, zeros};
use crate::sums::{add_resistors, add_strong, add_weak, put_levels, put_strong};
use net_union_find::{join_chosen, label_chosen};
use sim_base::{Drive, Level, OutOfMemory};
use std::alloc::Global;

/// Room in which levels are found.
#[derive(Drop)]
pub(crate) struct Room {
    /// The strong value of each group.
    strong: Vec<Level>,
    /// Which resistors connect two groups without a strong value.
    bridges: Vec<bool>,
    /// The area of each net: groups without a strong value that resistors connect.
    areas: Vec<u16>,
    /// What comes together in each area.
    sums: Vec<Level>,
}

/// Starts each sum with nothing.
fn clear(sums: &mut [Level])
    ensures { (k : ℕ) → k < length sums.old → sum_at sums.new k ≡ Level.Z }
{
    for i in 0..sums.len() {
        sums[i] = Level::Z;
    }
}

/// Groups the nets over the contacts that are closed.
pub(crate) fn group_nets(contacts: &[(u16, u16)], closed: &[bool], groups: &mut [u16])
    requires contacts { ArePairs (length groups.old) contacts.now }
    requires closed { length closed.now ≡ length contacts.now }
    requires few { length groups.old ≤ 65536 }
    ensures { AreGroups contacts.now closed.now groups.new }
{
    label_chosen(contacts, closed, groups);
}

/// Sums the strong drives of each group.
fn sum_groups(net_of: &[u16], drives: &[Drive], groups: &[u16], strong: &mut [Level])
    requires pins { length drives.now ≡ length net_of.now }
    requires nets { (k : ℕ) → k < length net_of.now → slice_index net_of.now k < length groups.now }
    requires groups { (n : ℕ) → n < length groups.now → slice_index groups.now n < length strong.old }
    ensures { (g : ℕ) → g < length strong.old →
        sum_at strong.new g ≡ added strong_level (λ n. slice_index groups.now n == g) Level.Z (zip net_of.now drives.now) }
{
    clear(strong);
    add_strong(net_of, drives, groups, strong);
}

/// Joins the groups without a strong value that resistors connect.
fn find_areas(
    resistors: &[(u16, u16)],
    groups: &[u16],
    strong: &[Level],
    bridges: &mut [bool],
    areas: &mut [u16],
)
    requires resistors { ArePairs (length groups.now) resistors.now }
    requires groups { (n : ℕ) → n < length groups.now → slice_index groups.now n < length strong.now }
    requires labels { AreLabels groups.now }
    requires bridges { length bridges.old ≡ length resistors.now }
    requires areas { length areas.old ≡ length groups.now }
    ensures labels { AreLabels areas.new }
    ensures joins { Joins
        (contact_joins resistors.now (map (λ r. is_loose groups.now strong.now r.0 && is_loose groups.now strong.now r.1) resistors.now))
        groups.now areas.new }
{
    areas.copy_from_slice(groups);
    if put_bridges(resistors, groups, strong, bridges) {
        join_chosen(resistors, bridges, areas);
    }
}

/// Sums what comes together in each area.
fn sum_areas(
    net_of: &[u16],
    drives: &[Drive],
    resistors: &[(u16, u16)],
    groups: &[u16],
    strong: &[Level],
    areas: &[u16],
    sums: &mut [Level],
)
    requires pins { length drives.now ≡ length net_of.now }
    requires nets { (k : ℕ) → k < length net_of.now → slice_index net_of.now k < length groups.now }
    requires resistors { ArePairs (length groups.now) resistors.now }
    requires groups { (n : ℕ) → n < length groups.now → slice_index groups.now n < length strong.now }
    requires places { length areas.now ≡ length groups.now }
    requires areas { (n : ℕ) → n < length areas.now → slice_index areas.now n < length sums.old }
    ensures { (a : ℕ) → a < length sums.old → sum_at sums.new a
        ≡ added weak_level (λ n. is_loose groups.now strong.now n && (slice_index areas.now n == a))
        (resistors_add groups.now strong.now areas.now a Level.Z resistors.now) (zip net_of.now drives.now) }
{
    clear(sums);
    add_resistors(resistors, groups, strong, areas, sums);
    add_weak(net_of, drives, groups, strong, areas, sums);
}

impl Room {
    /// Room for so many nets and resistors.
    pub(crate) fn new(alloc: Global, nets: usize, resistors: usize) -> Result<Room, OutOfMemory>
        ensures { IfOk result (λ r. FitsRoom nets resistors r) }
    {
        let strong = all_z(alloc, nets)?;
        let bridges = no_flags(alloc, resistors)?;
        let areas = zeros(alloc, nets)?;
        let sums = all_z(alloc, nets)?;
        Ok(Room {
            strong,
            bridges,
            areas,
            sums,
        })
    }

    /// Writes the level of each net. Weak drives and resistors are looked at only where a group has no strong value.
    pub(crate) fn resolve(
        &mut self,
        net_of: &[u16],
        drives: &[Drive],
        resistors: &[(u16, u16)],
        groups: &[u16],
        levels: &mut [Level],
    )
        requires pins { length drives.now ≡ length net_of.now }
        requires nets { (k n : ℕ) → slice_get net_of.now k ≡ Some n → n < length groups.now }
        requires resistors { ArePairs (length groups.now) resistors.now }
        requires labels { AreLabels groups.now }
        requires room { FitsRoom (length groups.now) (length resistors.now) self.old }
        requires levels { length levels.old ≡ length groups.now }
        ensures room { FitsRoom (length groups.now) (length resistors.now) self.new }
        ensures levels { (contacts : List (ℕ × ℕ)) (closed : List Bool) → AreGroups contacts closed groups.now →
            levels.new ≡ resolve (length groups.now) net_of.now contacts resistors.now closed drives.now }
    {
        let strong = self.strong.as_mut_slice();
        sum_groups(net_of, drives, groups, strong);
        if put_strong(groups, strong, levels) {
            return;
        }
        let areas = self.areas.as_mut_slice();
        find_areas(
            resistors,
            groups,
            strong,
            self.bridges.as_mut_slice(),
            areas,
        );
        let sums = self.sums.as_mut_slice();
        sum_areas(net_of, drives, resistors, groups, strong, areas, sums);
        put_levels(groups, strong, areas, sums, levels);
    }
}
