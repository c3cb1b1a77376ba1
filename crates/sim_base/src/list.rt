//! A list that contracts see as a list.
ghost use Rattle.std.specs.Prelude.{◌≡◌, ℕ, [], ◌∷◌, ◌++◌, length, OnOk, OnErr, slice_get, slice_set, take, drop, Some, ◌<◌, ◌≤◌, insert, option_copied, option_map};
ghost use Rattle.std.specs.Borrow.{Array, Lends, sem};
ghost use Rattle.sim_base.specs.contracts.list.List.{the_row};

use crate::fault::OutOfMemory;
use std::alloc::Global;
use std::marker::Model;

/// A list of items on the heap.
#[derive(Drop)]
pub struct List<T> {
    items: Vec<T>,
}

impl<T> Model for List<T> {
    ghost use Rattle.std.specs.Prelude.{List};
    ghost use Rattle.std.specs.Coded.{coded_list};

    ghost Value = { List T };

    ghost coded = { coded_list T.code };

    ghost view = { λ a. a.items.items };
}

impl<T> List<T> {
    /// An empty list, which takes no memory.
    pub fn new(alloc: Global) -> List<T>
        ensures { result ≡ [] }
    {
        List {
            items: Vec::new(alloc),
        }
    }

    pub fn from_vec(items: Vec<T>) -> List<T>
        ensures { result ≡ items.items }
    {
        List { items }
    }

    pub fn len(&self) -> usize
        ensures { result ≡ length self.now }
    {
        self.items.len()
    }

    pub fn as_slice(&self) -> &[T]
        ensures { result.now ≡ self.now }
    {
        self.items.as_slice()
    }

    pub fn get(&self, i: usize) -> Option<&T>
        ensures { option_map (λ r. r.now) result ≡ slice_get self.now i }
    {
        self.items.get(i)
    }

    /// The item at a place that there is, to be changed.
    pub fn item_mut(&mut self, i: usize) -> &mut T
        requires { i < length self.old }
        ensures* writes_back { sem 𝓛 (Lends (the_row T.row) T.row self.entry result (λ w. slice_set self.old i w)) }
        ensures value { slice_get self.old i ≡ Some result.now }
    {
        &mut self.items[i]
    }

    /// All items, to be changed.
    pub fn as_mut_slice(&mut self) -> &mut [T]
        ensures* writes_back { sem 𝓛 (Lends (the_row T.row) (Array T.row 0) self.entry result (λ ws. take (length self.old) (ws ++ drop (length ws) self.old))) }
        ensures value { result.now ≡ self.old }
    {
        self.items.as_mut_slice()
    }
}

impl<T: Drop> List<T> {
    /// Adds an item at the end; if memory runs out, the list is as before.
    pub fn push(&mut self, item: T) -> Result<(), OutOfMemory>
        ensures ok { OnOk result (self.new ≡ self.old ++ item ∷ []) }
        ensures err { OnErr result (self.new ≡ self.old) }
    {
        self.items.push(item)?;
        Ok(())
    }

    /// Puts an item at a place, before the one that stands there; if memory runs out, the list is as before.
    pub fn insert(&mut self, i: usize, item: T) -> Result<(), OutOfMemory>
        requires { i ≤ length self.old }
        ensures ok { OnOk result (self.new ≡ insert self.old i item) }
        ensures err { OnErr result (self.new ≡ self.old) }
    {
        self.items.insert(i, item)?;
        Ok(())
    }
}
