//! Numbers that are listed, and numbers that are marked.
ghost use Rattle.std.specs.Prelude.{◌≡◌, ℕ, ◌<◌, ◌≤◌, List, [], ◌∷◌, ◌++◌, length, eqb, true, false, Some, slice_get};
ghost use Rattle.std.specs.Prelude.{IfOk, IfSome, MatchOption, vec_len, vec_capacity};
ghost use Rattle.std.specs.List.{IsDistinct};
ghost use Rattle.net_resolve.specs.Marked.{has, with_mark, Taken};

use crate::room::no_flags;
use sim_base::OutOfMemory;
use std::alloc::Global;
use std::marker::Model;

/// Numbers below a count, each once. To add one takes no memory.
#[derive(Drop)]
pub(crate) struct Numbers {
    room: u16,
    list: Vec<u16>,
}

impl Model for Numbers {
    ghost use Rattle.std.specs.Prelude.{◌≡◌, ℕ, ◌<◌, ◌≤◌, eqb, true, vec_capacity};
    ghost use Rattle.std.specs.List.{IsDistinct};
    ghost use Rattle.net_resolve.specs.Marked.{MarksView, has};

    ghost Value = { MarksView };

    ghost view = { λ a. record { room = a.room; marked = a.list.items } };

    ghost invariant = { λ a. record {
      low : (n : ℕ) → has a.list.items n ≡ true → n < a.room;
      once : IsDistinct eqb a.list.items;
      capacity : a.room ≤ vec_capacity a.list;
    } };
}

/// Numbers below a count that are marked, each once. To mark one takes no memory.
#[derive(Drop)]
pub(crate) struct Marks {
    flags: Vec<bool>,
    numbers: Numbers,
}

impl Model for Marks {
    ghost use Rattle.std.specs.Prelude.{◌≡◌, ℕ, ◌<◌, Some, slice_get, vec_len};
    ghost use Rattle.net_resolve.specs.Marked.{MarksView, has};

    ghost Value = { MarksView };

    ghost view = { λ a. a.numbers };

    ghost invariant = { λ a. record {
      room : vec_len a.flags ≡ a.numbers.room;
      flagged : (n : ℕ) → n < vec_len a.flags → slice_get a.flags.items n ≡ Some (has a.numbers.marked n);
    } };
}

/// Writes a number behind others, for which there is room.
#[inline(always)]
fn put_last(list: &mut Vec<u16>, n: u16)
    requires { vec_len list.old < vec_capacity list.old }
    ensures items { list.new.items ≡ list.old.items ++ n ∷ [] }
    ensures capacity { vec_capacity list.old ≤ vec_capacity list.new }
{
    match list.push(n) {
        Ok(()) => {}
        Err(_) => unreachable!(),
    }
}

impl Numbers {
    /// No numbers, with room for so many.
    pub(crate) fn new(alloc: Global, room: u16) -> Result<Numbers, OutOfMemory>
        ensures { IfOk result (λ m. m ≡ record { room = room; marked = [] }) }
    {
        Ok(Numbers {
            room,
            list: Vec::with_capacity(alloc, room as usize)?,
        })
    }

    /// Adds a number that is not there.
    #[inline(always)]
    pub(crate) fn add(&mut self, n: u16)
        requires low { n < self.old.room }
        requires fresh { has self.old.marked n ≡ false }
        ensures { self.new ≡ record self.old { marked = with_mark n self.old.marked } }
    {
        put_last(&mut self.list, n);
    }

    /// Takes all numbers out.
    #[inline(always)]
    pub(crate) fn clear(&mut self)
        ensures { self.new ≡ record self.old { marked = [] } }
    {
        self.list.clear();
    }

    /// Takes out the number that was added last.
    #[inline(always)]
    pub(crate) fn take(&mut self) -> Option<u16>
        ensures room { self.new.room ≡ self.old.room }
        ensures taken { MatchOption result ((self.old.marked ≡ []) × (self.new.marked ≡ [])) (λ n. Taken n self.old.marked self.new.marked) }
        ensures low { IfSome result (λ n. n < self.old.room) }
    {
        self.list.pop()
    }

    /// The numbers, in the order in which they were added.
    #[inline(always)]
    pub(crate) fn items(&self) -> &[u16]
        ensures marked { result.now ≡ self.now.marked }
        ensures once { IsDistinct eqb result.now }
        ensures low { (n : ℕ) → has result.now n ≡ true → n < self.now.room }
    {
        &self.list
    }
}

impl Marks {
    /// No marks, with room for so many.
    pub(crate) fn new(alloc: Global, room: u16) -> Result<Marks, OutOfMemory>
        ensures { IfOk result (λ m. m ≡ record { room = room; marked = [] }) }
    {
        Ok(Marks {
            flags: no_flags(alloc, room as usize)?,
            numbers: Numbers::new(alloc, room)?,
        })
    }

    /// All numbers below a count, marked.
    pub(crate) fn all(alloc: Global, room: u16) -> Result<Marks, OutOfMemory>
        ensures room { IfOk result (λ m. m.room ≡ room) }
        ensures few { IfOk result (λ m. m.room ≤ 65535) }
        ensures all { IfOk result (λ m. (n : ℕ) → n < room → has m.marked n ≡ true) }
    {
        let mut marks = Marks::new(alloc, room)?;
        for n in 0..room {
            marks.mark(n);
        }
        Ok(marks)
    }

    #[inline(always)]
    pub(crate) fn mark(&mut self, n: u16)
        requires { n < self.old.room }
        ensures { self.new ≡ record self.old { marked = with_mark n self.old.marked } }
    {
        if !self.flags[n as usize] {
            self.flags[n as usize] = true;
            self.numbers.add(n);
        }
    }

    /// Takes the mark off the number that was marked last.
    #[inline(always)]
    pub(crate) fn take(&mut self) -> Option<u16>
        ensures room { self.new.room ≡ self.old.room }
        ensures taken { MatchOption result ((self.old.marked ≡ []) × (self.new.marked ≡ [])) (λ n. Taken n self.old.marked self.new.marked) }
        ensures low { IfSome result (λ n. n < self.old.room) }
    {
        match self.numbers.take() {
            Some(n) => {
                self.flags[n as usize] = false;
                Some(n)
            }
            None => None,
        }
    }
}
