//! For each omission the first write that asked for it.
ghost use Rattle.std.specs.Prelude.{◌≡◌, slice_set};
ghost use Rattle.avr_omit.specs.Kept.{place_of, earlier, with_asked, none_asked, noted, asked_for};

use crate::omission::{Omission, left_out, left_out_beside};
use std::marker::Model;

/// How many omissions there are.
pub const OMISSIONS: usize = 23;

/// A write, and the cycle in which its instruction began.
#[derive(Clone, Copy)]
pub struct Asked {
    pub cycle: u64,
    pub address: u8,
    pub value: u8,
}

/// For each omission the first write that asked for it.
#[derive(Drop)]
pub struct Omissions {
    kept: [Option<Asked>; OMISSIONS],
}

impl Model for Omissions {
    ghost use Rattle.std.specs.Prelude.{◌≡◌, length, List, Option};
    ghost use Rattle.avr_omit.specs.declared.kept.Asked.{Asked as Write};

    ghost Value = { List (Option Write) };

    ghost view = { λ o. o.kept };

    ghost invariant = { λ o. length o.kept ≡ 23 };
}

impl Omissions {
    /// Nothing was asked for.
    pub fn new() -> Omissions
        ensures { result ≡ none_asked }
    {
        Omissions {
            kept: [None; OMISSIONS],
        }
    }

    /// Notes a write, where it asks for something that is left out.
    #[inline]
    pub fn note(&mut self, asked: Asked)
        ensures { self.new ≡ noted asked self.old }
    {
        self.add(left_out(asked.address, asked.value), asked);
        self.add(left_out_beside(asked.address, asked.value), asked);
    }

    /// The first write that asked for this.
    pub fn first(&self, omission: Omission) -> Option<Asked>
        ensures { result ≡ asked_for omission self.now }
    {
        self.kept[omission.place() as usize]
    }

    #[inline]
    fn add(&mut self, omission: Option<Omission>, asked: Asked)
        ensures { self.new ≡ with_asked omission asked self.old }
    {
        if let Some(omission) = omission {
            self.keep(omission, asked);
        }
    }

    // Keeps a write, where it is the first that asks for this.
    #[inline(never)]
    fn keep(&mut self, omission: Omission, asked: Asked)
        ensures { self.new ≡ slice_set self.old (place_of omission) (earlier (asked_for omission self.old) asked) }
    {
        let place = omission.place() as usize;
        self.kept[place] = earlier(self.kept[place], asked);
    }
}

// The first of two writes.
fn earlier(old: Option<Asked>, new: Asked) -> Option<Asked>
    ensures { result ≡ earlier old new }
{
    match old {
        None => Some(new),
        Some(old) => Some(old),
    }
}
