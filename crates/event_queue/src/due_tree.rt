//! The tree.
ghost use Rattle.std.specs.Prelude.{◌≡◌, ◌≢◌, ℕ, ◌+◌, ◌*◌, ◌/◌, ◌<◌, ◌≤◌, ◌⊎◌, List, length, replicate, Option, None, Some, true, slice_get, slice_set, IfOk};
ghost use Rattle.event_queue.specs.First.{IsFirst};
ghost use Rattle.event_queue.specs.Places.{leaf, at_place, IsBest, IsPlayed, IsAlone, IsWithout};

use crate::entry::{Entry, earlier};
use sim_base::OutOfMemory;
use std::alloc::{AllocError, Global};
use std::marker::Model;

/// The due cycle of each of at most 64 parts.
#[derive(Drop)]
pub struct DueTree {
    dues: Vec<Option<u64>>,
    /// At place k, the earlier of the two entries under it, where there are more parts than k.
    best: [Entry; 64],
    /// A part but for which none is due, where that is known: it meets no other until another is due.
    alone: Option<u8>,
}

impl Model for DueTree {
    ghost use Rattle.std.specs.Prelude.{ℕ, ◌<◌, ◌≤◌, List, Option, length};
    ghost use Rattle.event_queue.specs.Places.{IsBest, IsPlayed, IsAlone};

    ghost Value = { List (Option ℕ) };

    ghost view = { λ a. a.dues.items };

    ghost invariant = { λ a. record {
      few : length a.dues.items ≤ 64;
      best : (k : ℕ) → 1 ≤ k → k < length a.dues.items → IsPlayed a.alone (length a.dues.items) k → IsBest (length a.dues.items) a.dues.items a.best k;
      alone : IsAlone a.alone a.dues.items;
    } };
}

/// Part i with its due cycle.
#[inline]
fn leaf_of(dues: &[Option<u64>], i: usize) -> Entry
    requires few { length dues.now ≤ 64 }
    requires part { i < length dues.now }
    ensures { result ≡ leaf dues.now i }
{
    Entry {
        due: dues[i],
        part: i as u8,
    }
}

/// What stands at a place.
#[inline]
fn at(dues: &[Option<u64>], best: &[Entry; 64], place: usize) -> Entry
    requires few { length dues.now ≤ 64 }
    requires place { place < 2 * length dues.now }
    ensures { result ≡ at_place (length dues.now) dues.now best.now place }
{
    if place < dues.len() {
        return best[place];
    }
    leaf_of(dues, place - dues.len())
}

/// Lets part i meet the others anew, from its place to the top.
#[inline(never)]
fn replay(dues: &[Option<u64>], best: &mut [Entry; 64], i: usize)
    requires few { length dues.now ≤ 64 }
    requires part { i < length dues.now }
    requires best { (k : ℕ) → 1 ≤ k → k < length dues.now → k ≢ (length dues.now + i) / 2 → IsBest (length dues.now) dues.now best.old k }
    ensures { (k : ℕ) → 1 ≤ k → k < length dues.now → IsBest (length dues.now) dues.now best.new k }
{
    let mut place = dues.len() + i;
    while place > 1 {
        place /= 2;
        let left = at(dues, best, 2 * place);
        let right = at(dues, best, 2 * place + 1);
        best[place] = earlier(left, right);
    }
}

/// The place that is under the same one.
#[inline]
fn beside(place: usize) -> usize
    requires { 1 < place }
    ensures { (place ≡ 2 * (place / 2)) × (result ≡ 2 * (place / 2) + 1) ⊎ (place ≡ 2 * (place / 2) + 1) × (result ≡ 2 * (place / 2)) }
{
    if place % 2 == 0 { place + 1 } else { place - 1 }
}

/// The first of the parts but part i: the earliest of what stands beside its way to the top.
#[inline]
fn first_without(dues: &[Option<u64>], best: &[Entry; 64], i: u8) -> Entry
    requires few { length dues.now ≤ 64 }
    requires part { i < length dues.now }
    requires best { (k : ℕ) → 1 ≤ k → k < length dues.now → IsBest (length dues.now) dues.now best.now k }
    ensures { IsWithout dues.now best.now i 1 result }
{
    let mut place = dues.len() + i as usize;
    let mut found = Entry { due: None, part: i };
    while place > 1 {
        found = earlier(found, at(dues, best, beside(place)));
        place /= 2;
    }
    found
}

/// Whether two due cycles are the same.
#[inline]
fn is_same_due(a: Option<u64>, b: Option<u64>) -> bool
    ensures { result ≡ true → a ≡ b }
{
    match (a, b) {
        (Some(u), Some(v)) => u == v,
        (None, None) => true,
        _ => false,
    }
}

/// Whether the part that is alone is this one.
#[inline]
fn is_part(alone: Option<u8>, i: u8) -> bool
    ensures { result ≡ true → alone ≡ Some i }
{
    match alone {
        Some(j) => j == i,
        None => false,
    }
}

/// Whether no part is known to be alone.
#[inline]
fn is_none_alone(alone: Option<u8>) -> bool
    ensures { result ≡ true → alone ≡ None }
{
    match alone {
        Some(_) => false,
        None => true,
    }
}

/// Lets the part that was alone meet the others.
fn join(dues: &[Option<u64>], best: &mut [Entry; 64], alone: Option<u8>)
    requires few { length dues.now ≤ 64 }
    requires alone { IsAlone alone dues.now }
    requires best { (k : ℕ) → 1 ≤ k → k < length dues.now → IsPlayed alone (length dues.now) k → IsBest (length dues.now) dues.now best.old k }
    ensures { (k : ℕ) → 1 ≤ k → k < length dues.now → IsBest (length dues.now) dues.now best.new k }
{
    if let Some(j) = alone {
        replay(dues, best, j as usize);
    }
}

/// The part but for which none is due, if there is one.
fn only_due(dues: &[Option<u64>], best: &[Entry; 64]) -> Option<u8>
    requires few { length dues.now ≤ 64 }
    requires some { 1 ≤ length dues.now }
    requires best { (k : ℕ) → 1 ≤ k → k < length dues.now → IsBest (length dues.now) dues.now best.now k }
    ensures { IsAlone result dues.now }
{
    let top = at(dues, best, 1);
    if let Some(_cycle) = top.due {
        return match first_without(dues, best, top.part).due {
            Some(_) => None,
            None => Some(top.part),
        };
    }
    None
}

/// The first of all, where the part that is alone meets no other.
#[inline]
fn first_of(dues: &[Option<u64>], best: &[Entry; 64], alone: Option<u8>) -> Option<(u64, u8)>
    requires few { length dues.now ≤ 64 }
    requires best { (k : ℕ) → 1 ≤ k → k < length dues.now → IsPlayed alone (length dues.now) k → IsBest (length dues.now) dues.now best.now k }
    requires alone { IsAlone alone dues.now }
    ensures { IsFirst dues.now result }
{
    if let Some(j) = alone {
        return leaf_of(dues, j as usize).with_cycle();
    }
    if dues.is_empty() {
        return None;
    }
    at(dues, best, 1).with_cycle()
}

/// The first of the parts but part i.
#[inline]
fn first_beside(
    dues: &[Option<u64>],
    best: &[Entry; 64],
    alone: Option<u8>,
    i: u8,
) -> Option<(u64, u8)>
    requires few { length dues.now ≤ 64 }
    requires part { i < length dues.now }
    requires best { (k : ℕ) → 1 ≤ k → k < length dues.now → IsPlayed alone (length dues.now) k → IsBest (length dues.now) dues.now best.now k }
    requires alone { IsAlone alone dues.now }
    ensures { IsFirst (slice_set dues.now i None) result }
{
    if let Some(j) = alone {
        if j == i {
            return None;
        }
        return leaf_of(dues, j as usize).with_cycle();
    }
    first_without(dues, best, i).with_cycle()
}

fn no_dues(alloc: Global, n: usize) -> Result<Vec<Option<u64>>, AllocError>
    ensures { IfOk result (λ v. v.items ≡ replicate n None) }
{
    vec![in alloc; None; n]
}

fn no_entries() -> [Entry; 64]
    ensures { result ≡ replicate 64 (record { due = None; part = 0 }) }
{
    [Entry { due: None, part: 0 }; 64]
}

impl DueTree {
    /// No part of n is due.
    pub fn new(alloc: Global, n: u8) -> Result<DueTree, OutOfMemory>
        requires { n ≤ 64 }
        ensures { IfOk result (λ tree. tree ≡ replicate n None) }
    {
        Ok(DueTree {
            dues: no_dues(alloc, n as usize)?,
            best: no_entries(),
            alone: None,
        })
    }

    /// When part i is due.
    #[inline]
    pub fn due(&self, i: u8) -> Option<u64>
        requires { i < length self.now }
        ensures { slice_get self.now i ≡ Some result }
    {
        self.dues[i as usize]
    }

    /// Part i is due in this cycle, or not at all.
    #[inline(always)]
    pub fn set(&mut self, i: u8, due: Option<u64>)
        requires { i < length self.old }
        ensures { self.new ≡ slice_set self.old i due }
    {
        if is_same_due(self.dues[i as usize], due) {
            return;
        }
        if is_part(self.alone, i) {
            self.dues[i as usize] = due;
            return;
        }
        if due.is_some() & is_none_alone(self.alone) {
            self.dues[i as usize] = due;
            replay(&self.dues, &mut self.best, i as usize);
            return;
        }
        self.renew(i, due);
    }

    /// The same where a part is alone or comes to be.
    #[inline(never)]
    fn renew(&mut self, i: u8, due: Option<u64>)
        requires { i < length self.old }
        ensures { self.new ≡ slice_set self.old i due }
    {
        join(&self.dues, &mut self.best, self.alone);
        self.dues[i as usize] = due;
        replay(&self.dues, &mut self.best, i as usize);
        self.alone = if due.is_some() {
            None
        } else {
            only_due(&self.dues, &self.best)
        };
    }

    /// Notes whether one part alone is due.
    pub fn note_alone(&mut self)
        ensures { self.new ≡ self.old }
    {
        if !self.dues.is_empty() {
            join(&self.dues, &mut self.best, self.alone);
            self.alone = only_due(&self.dues, &self.best);
        }
    }

    /// The least due cycle, with the least part that has it.
    #[inline]
    pub fn first(&self) -> Option<(u64, u8)>
        ensures { IsFirst self.now result }
    {
        first_of(&self.dues, &self.best, self.alone)
    }

    /// The least due cycle of the parts but this one, with the least part that has it.
    #[inline]
    pub fn first_but(&mut self, i: u8) -> Option<(u64, u8)>
        requires { i < length self.old }
        ensures same { self.new ≡ self.old }
        ensures first { IsFirst (slice_set self.old i None) result }
    {
        first_beside(&self.dues, &self.best, self.alone, i)
    }
}
