//! Resolutions that are kept: levels, with what was driven and closed when they were found.
ghost use Rattle.std.specs.Prelude.{◌≡◌, ℕ, ◌<◌, length, map, Some, slice_get, vec_len, true};
ghost use Rattle.board_model.specs.Rows.{same_drive};
ghost use Rattle.net_resolve.specs.Resolutions.{last_of};

use sim_base::{Drive, Level};

/// What some pins drove and which contacts were closed, with the levels that came of it.
#[derive(Drop)]
pub(crate) struct Resolution {
    pub(crate) drives: Vec<Drive>,
    pub(crate) closed: Vec<bool>,
    pub(crate) levels: Vec<Level>,
}

/// Two resolutions, and which of them was asked for last.
#[derive(Drop)]
pub(crate) struct Kept {
    pub(crate) first: Resolution,
    pub(crate) second: Resolution,
    pub(crate) flipped: bool,
}

#[inline(always)]
pub(crate) fn is_same_drive(a: Drive, b: Drive) -> bool
    ensures { result ≡ same_drive a b }
{
    a == b
}

#[inline(always)]
pub(crate) fn is_same_flag(a: bool, b: bool) -> bool
    ensures { result ≡ true → a ≡ b }
{
    a == b
}

/// Whether the pins at these places drive what was kept.
#[inline(always)]
fn drive_as_kept(drives: &[Drive], pins: &[usize], kept: &[Drive]) -> bool
    requires pins { (j k : ℕ) → slice_get pins.now j ≡ Some k → k < length drives.now }
    requires each { length kept.now ≡ length pins.now }
    ensures { result ≡ true → map Some kept.now ≡ map (slice_get drives.now) pins.now }
{
    for j in 0..pins.len() {
        if !is_same_drive(drives[pins[j]], kept[j]) {
            return false;
        }
    }
    true
}

/// Whether of the contacts at these places those are closed that were kept as closed.
#[inline(always)]
fn are_closed_as_kept(closed: &[bool], contacts: &[usize], kept: &[bool]) -> bool
    requires contacts { (j k : ℕ) → slice_get contacts.now j ≡ Some k → k < length closed.now }
    requires each { length kept.now ≡ length contacts.now }
    ensures { result ≡ true → map Some kept.now ≡ map (slice_get closed.now) contacts.now }
{
    for j in 0..contacts.len() {
        if !is_same_flag(closed[contacts[j]], kept[j]) {
            return false;
        }
    }
    true
}

impl Resolution {
    /// Whether it holds for what the pins at some places drive and the contacts at some places that are closed.
    #[inline(always)]
    pub(crate) fn holds(
        &self,
        drives: &[Drive],
        closed: &[bool],
        pins: &[usize],
        contacts: &[usize],
    ) -> bool
        requires pins { (j k : ℕ) → slice_get pins.now j ≡ Some k → k < length drives.now }
        requires contacts { (j k : ℕ) → slice_get contacts.now j ≡ Some k → k < length closed.now }
        requires drives_long { vec_len self.now.drives ≡ length pins.now }
        requires closed_long { vec_len self.now.closed ≡ length contacts.now }
        ensures drives { result ≡ true → map Some self.now.drives.items ≡ map (slice_get drives.now) pins.now }
        ensures closed { result ≡ true → map Some self.now.closed.items ≡ map (slice_get closed.now) contacts.now }
    {
        drive_as_kept(drives, pins, &self.drives)
            && are_closed_as_kept(closed, contacts, &self.closed)
    }
}

impl Kept {
    /// The resolution that was asked for last.
    #[inline(always)]
    pub(crate) fn last(&self) -> &Resolution
        ensures { result.now ≡ last_of self.now }
    {
        if self.flipped {
            &self.second
        } else {
            &self.first
        }
    }
}
